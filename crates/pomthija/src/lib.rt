// What C hosts call, by the exports of `pomthija_c`: each function gives the answer of one operation in numbers.
#![tactic(auto)]

ghost use Rattle.std.specs.Prelude.{◌≡◌};
ghost use Rattle.answer_node.specs.Node.{node_answer};
ghost use Rattle.answer_evaluation.specs.Evaluation.{evaluation_answer};
ghost use Rattle.answer_listing.specs.Listing.{listing_of};
ghost use Rattle.pomthija.specs.Returned.{Returned, ReturnedListing, ReturnedVerdict, version};

use host::hand_out;
use verdict::Verdict;

// The number of the interface, POMTHIJA_VERSION of the header that belongs to it.
pub fn pomthija_version() -> u64
    ensures { result ≡ version }
{
    1
}

// The node verdict: 0, with 1 (always), 0 (never) or 2 (undecided) in `out` and the reason's number in `reason`, 0 where
// undecided; or the refusal's number, with its offset in `out` and 0 in `reason`.
pub fn pomthija_node_verdict(s: &[u8], number: u64, out: &mut u64, reason: &mut u64) -> u64
    ensures { ReturnedVerdict result out.new reason.new (node_answer s.now number) }
{
    let (answer, why) = match answer_node::node_verdict(s, number) {
        Ok(Verdict::Always(r)) => (Ok(1), r.number()),
        Ok(Verdict::Never(r)) => (Ok(0), r.number()),
        Ok(Verdict::Undecided) => (Ok(2), 0),
        // never the answer for a node
        Ok(Verdict::NoBranch) => unreachable!(),
        Err(r) => (Err(r), 0),
    };
    *reason = why as u64;
    hand_out(answer, out)
}

// The listing: 0, with the number of lines in `out`; or the refusal's number, with its offset in `out`.
pub fn pomthija_listing(s: &[u8], list: &mut [u8], out: &mut u64) -> u64
    ensures { ReturnedListing result out.new (listing_of s.now list.old).answer × (list.new ≡ (listing_of s.now list.old).list) }
{
    hand_out(answer_listing::listing(s, list), out)
}

// The evaluation: 0, with 1 or 0 in `out` where the condition holds or not; or the refusal's number, with its offset
// in `out`.
pub fn pomthija_evaluation(s: &[u8], number: u64, values: &[u64], out: &mut u64) -> u64
    ensures { Returned result out.new (evaluation_answer s.now number values.now) }
{
    hand_out(
        answer_evaluation::evaluation(s, number, values).map(u64::from),
        out,
    )
}
