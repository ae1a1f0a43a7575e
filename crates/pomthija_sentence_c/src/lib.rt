// The export for C hosts that want a sentence. It is a crate beside `pomthija_c`, and so a module of its own in the library: the functions that reading
// and judging share with it keep their single caller there, and the listing its speed.
#![tactic(auto)]

ghost use Rattle.std.specs.Prelude.{◌≡◌};
ghost use Rattle.answer_sentence.specs.Sentence.{sentence_answer};
ghost use Rattle.pomthija_sentence.specs.Returned.{ReturnedSentence};

// The sentence of a block's verdict: 0, with its length in `out`; or the refusal's number, with its offset in `out`.
#[unsafe(no_mangle)]
pub extern "C" fn pomthija_sentence(s: &[u8], block: u64, text: &mut [u8], out: &mut u64) -> u64
    ensures { ReturnedSentence result out.new (sentence_answer s.now block text.old).answer × (text.new ≡ (sentence_answer s.now block text.old).text) }
{
    pomthija_sentence::pomthija_sentence(s, block, text, out)
}
