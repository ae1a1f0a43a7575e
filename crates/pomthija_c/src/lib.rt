// The exports for C hosts: each calls the function of that name in `pomthija`, and promises what that promises.
#![tactic(auto)]

ghost use Rattle.std.specs.Prelude.{◌≡◌};
ghost use Rattle.answer_node.specs.Node.{node_answer};
ghost use Rattle.answer_evaluation.specs.Evaluation.{evaluation_answer};
ghost use Rattle.answer_listing.specs.Listing.{listing_of};
ghost use Rattle.pomthija.specs.Returned.{Returned, ReturnedListing, ReturnedVerdict, version};

// The number of the interface, POMTHIJA_VERSION of the header that belongs to it.
#[unsafe(no_mangle)]
pub extern "C" fn pomthija_version() -> u64
    ensures { result ≡ version }
{
    pomthija::pomthija_version()
}

// The node verdict: 0, with 1 (always), 0 (never) or 2 (undecided) in `out` and the reason's number in `reason`, 0 where
// undecided; or the refusal's number, with its offset in `out` and 0 in `reason`.
#[unsafe(no_mangle)]
pub extern "C" fn pomthija_node_verdict(
    s: &[u8],
    number: u64,
    out: &mut u64,
    reason: &mut u64,
) -> u64
    ensures { ReturnedVerdict result out.new reason.new (node_answer s.now number) }
{
    pomthija::pomthija_node_verdict(s, number, out, reason)
}

// The listing: 0, with the number of lines in `out`; or the refusal's number, with its offset in `out`.
#[unsafe(no_mangle)]
pub extern "C" fn pomthija_listing(s: &[u8], list: &mut [u8], out: &mut u64) -> u64
    ensures { ReturnedListing result out.new (listing_of s.now list.old).answer × (list.new ≡ (listing_of s.now list.old).list) }
{
    pomthija::pomthija_listing(s, list, out)
}

// The evaluation: 0, with 1 or 0 in `out` where the condition holds or not; or the refusal's number, with its offset
// in `out`.
#[unsafe(no_mangle)]
pub extern "C" fn pomthija_evaluation(s: &[u8], number: u64, values: &[u64], out: &mut u64) -> u64
    ensures { Returned result out.new (evaluation_answer s.now number values.now) }
{
    pomthija::pomthija_evaluation(s, number, values, out)
}
