// The verdict on a block of an image, under the schedules and subkeys that are lent to it.
#![tactic(auto)]

ghost use Rattle.std.specs.Prelude.{◌≡◌};
ghost use Rattle.image_spec.specs.Judge.{of_both};
ghost use Rattle.image_spec.specs.Model.{lent_of, head_read_of, judged};

use aes_schedule::KeySchedule;
use cmac_subkeys::Subkeys;
use image_block_check::check_holds;
use image_block_fill::fill_is_zero;
use image_layout::{Head, head_of};
use image_limits::{edition_selected, tail_size};
use image_progress::{Progress, mark_asked_for};
use image_reasons::{Reason, Verdict};
use image_rules::judge_head;
use image_spec::{Judged, KeyPair};
use octets_block::load;

// The verdict of a reader of both editions on a block, and its header. Nothing is opened for it: the fill's test decrypts piece by piece.
pub fn judge(
    keys: &KeyPair,
    dec: &KeySchedule,
    subkeys: &Subkeys,
    progress: Progress,
    block: &[u8],
) -> Judged
    ensures { result ≡ judged (lent_of keys.now dec.now subkeys.now) progress block.now }
{
    let head = head_of(load(block, 0));
    Judged {
        verdict: verdict_on(keys, dec, subkeys, progress, head, block),
        head,
    }
}

// The tests in their order, with the header that the block has.
fn verdict_on(
    keys: &KeyPair,
    dec: &KeySchedule,
    subkeys: &Subkeys,
    progress: Progress,
    head: Head,
    block: &[u8],
) -> Verdict
    requires { head ≡ head_read_of block.now }
    ensures { result ≡ (of_both (lent_of keys.now dec.now subkeys.now)).verdict progress block.now }
{
    if image_progress::may_not_follow(progress) {
        return Verdict::Refused(Reason::AfterLast);
    }
    let covered = tail_size(edition_selected(head.reserved));
    if !check_holds(keys, subkeys, &progress.last[..covered], block) {
        return Verdict::Refused(Reason::CheckWrong);
    }
    let verdict = judge_head(progress, head, mark_asked_for(progress, head.reserved));
    let Verdict::Accepted = verdict else {
        return verdict;
    };
    if !fill_is_zero(&keys.enc, dec, block, head.len as usize) {
        return Verdict::Refused(Reason::FillNotZero);
    }
    Verdict::Accepted
}
