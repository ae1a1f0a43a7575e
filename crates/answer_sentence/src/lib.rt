// The sentence of a block's verdict: it takes any bytes and a borrowed text, refuses what reading refuses, and writes the sentence by the rules.
#![tactic(auto)]

ghost use Rattle.answer_sentence.specs.Sentence.{sentence_answer, Gives};

use refusal::{Fault, Refusal};
use sheet::code::CodeIndex;

// Writes the sentence of the verdict on the block of that number, from 0, to the start of the text, and gives its length. A block without a verdict
// has none: length 0.
pub fn block_sentence(s: &[u8], number: u64, text: &mut [u8]) -> Result<usize, Refusal>
    ensures { Gives result text.new (sentence_answer s.now number text.old) }
{
    let mut addresses = [0; 2048];
    let mut places = [0; 2048];
    let index = CodeIndex::with_block(s, number, &mut addresses, &mut places)?;
    sentence_block::sentence_on(&index, number, text).map_err(|short| Fault::Text.at(short.needed))
}
