// What C hosts call for a sentence, by the export of `pomthija_sentence_c`.
#![tactic(auto)]

ghost use Rattle.std.specs.Prelude.{◌≡◌};
ghost use Rattle.answer_sentence.specs.Sentence.{sentence_answer};
ghost use Rattle.pomthija_sentence.specs.Returned.{ReturnedSentence};

// The sentence of a block's verdict: 0, with its length in `out`; or the refusal's number, with its offset in `out`.
pub fn pomthija_sentence(s: &[u8], block: u64, text: &mut [u8], out: &mut u64) -> u64
    ensures { ReturnedSentence result out.new (sentence_answer s.now block text.old).answer × (text.new ≡ (sentence_answer s.now block text.old).text) }
{
    let told = answer_sentence::block_sentence(s, block, text);
    host::hand_out(told.map(|n| n as u64), out)
}
