// The block verdict: it takes any bytes, refuses what reading refuses, and answers by the rules.
#![tactic(auto)]

ghost use Rattle.std.specs.Prelude.{◌≡◌};
ghost use Rattle.verdict.specs.Numbers.{answer_numbers};
ghost use Rattle.answer_block.specs.Block.{block_answer};

use sheet::code::CodeIndex;
use verdict::Answer;

// The verdict on the block of that number, from 0.
pub fn block_verdict(s: &[u8], number: u64) -> Answer
    ensures { answer_numbers result ≡ block_answer s.now number }
{
    let mut addresses = [0; 2048];
    let mut places = [0; 2048];
    let index = CodeIndex::with_block(s, number, &mut addresses, &mut places)?;
    Ok(verdict_block::verdict_on(&index, number))
}
