// The tests that a reader makes of a block's header.
#![tactic(auto)]

ghost use Rattle.std.specs.Prelude.{◌≡◌, ◌==◌, ◌&&◌, not, nat_lt};
ghost use Rattle.image_reasons.specs.Reasons.{first_of};
ghost use Rattle.image_rules.specs.Rules.{head_tests};

use image_layout::Head;
use image_limits::{count_fits, length_fits};
use image_progress::Progress;
use image_reasons::{Reason, Verdict};

// What the tests 7, 8, 9, 10, 12 and 13 say of a header, asked in that order; the reserved number must be the mark.
#[tactic(auto, unfolding(crate::specs::Rules::head_tests, image_reasons::specs::Reasons::first_of))]
pub fn judge_head(progress: Progress, head: Head, mark: u32) -> Verdict
    ensures { result ≡ first_of (head_tests mark progress head) }
{
    if !count_fits(head.count) {
        return Verdict::Refused(Reason::Count(head.count));
    }
    if head.number != progress.next {
        return Verdict::Refused(Reason::Number(head.number));
    }
    if differs(progress.next, head.count, progress.count) {
        return Verdict::Refused(Reason::OtherCount(head.count));
    }
    if differs(progress.next, head.release, progress.release) {
        return Verdict::Refused(Reason::OtherRelease(head.release));
    }
    if !length_fits(head.number, head.count, usize::from(head.len)) {
        return Verdict::Refused(Reason::Length(head.len));
    }
    if u32::from(head.reserved) != mark {
        return Verdict::Refused(Reason::Reserved(head.reserved));
    }
    Verdict::Accepted
}

// Before the first block has been accepted nothing is fixed, and no value differs.
fn differs(next: u32, found: u32, fixed: u32) -> bool
    ensures { result ≡ (nat_lt 0 next && not (found == fixed)) }
{
    next > 0 && found != fixed
}
