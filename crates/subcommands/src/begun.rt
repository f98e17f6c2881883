//! Whether a hall's day has begun, asked before the store of one of its desks is made.

ghost use Rattle.std.specs.Prelude.{◌≡◌, ◌≤◌, ◌+◌, ◌∷◌, ◌↔◌, [], length, IsTrue};
ghost use Rattle.std.specs.Io.KnownBytes.{Keeps};
ghost use Rattle.batch.specs.Dialing.{Adds, asked_so};
ghost use Rattle.client.specs.Standings.{status_request};
ghost use Rattle.subcommands.specs.Begun.{AsksEach, MayBegin, MayMake, joined, known_by, place_at};
ghost use Rattle.wire.specs.Ranges.{IsDesk};

use batch::{BatchFault, Contact, Dial, ask_over};
use client::status_request;
use desk_requests::Inquiry;
use std::io::Write;
use wire::FrameBody;

/// What those desks of a hall report that answer.
#[derive(Clone, Copy, Debug, PartialEq, Eq)]
struct KnownDesks {
    /// Whether one answers.
    answers: bool,
    /// The greatest length of a log that one has.
    have: u32,
    /// The greatest length that the desk whose store is to be made reported to one.
    had: u32,
}

/// What a desk that was asked how it is reports, also of the desk of this number.
fn known_by(lost: u8, answer: &Result<FrameBody, BatchFault>) -> KnownDesks
    ensures { result ≡ known_by lost answer.now }
{
    match answer {
        Ok(FrameBody::Standing { standing }) => {
            let told = standing.told.as_slice();
            let place = usize::from(lost.saturating_sub(1));
            KnownDesks {
                answers: true,
                have: standing.length,
                had: if place < told.len() { told[place] } else { 0 },
            }
        }
        _ => KnownDesks {
            answers: false,
            have: 0,
            had: 0,
        },
    }
}

/// What two desks report together.
fn joined(one: KnownDesks, more: KnownDesks) -> KnownDesks
    ensures { result ≡ joined one more }
{
    KnownDesks {
        answers: one.answers || more.answers,
        have: one.have.max(more.have),
        had: one.had.max(more.had),
    }
}

/// Asks at an address how the desk of a number is.
fn ask_one<D: Dial>(
    dial: &mut D,
    inquiry: Inquiry<'_>,
    desk: u8,
    address: &str,
) -> Result<FrameBody, BatchFault>
    requires { IsDesk desk }
    ensures { Adds (place_at inquiry.entry address.now) (D.dialed dial.old) (D.dialed dial.new)
        (asked_so (status_request inquiry.entry.hall desk) result ∷ []) }
{
    let contact = Contact {
        address,
        patience: inquiry.patience,
        key: inquiry.key,
    };
    ask_over(dial, contact, &status_request(inquiry.hall, desk))
}

/// Asks at these addresses, at the first for the desk of this number, and at each further one for
/// the next.
fn ask_all<D: Dial>(
    dial: &mut D,
    inquiry: Inquiry<'_>,
    lost: u8,
    desk: u8,
    addresses: &[&str],
) -> KnownDesks
    requires from { 1 ≤ desk }
    requires few { desk + length addresses.now ≤ 6 }
    ensures { AsksEach inquiry.entry lost desk addresses.now result
        (D.dialed dial.old) (D.dialed dial.new) }
{
    let [address, rest @ ..] = addresses else {
        return KnownDesks {
            answers: false,
            have: 0,
            had: 0,
        };
    };
    let answer = ask_one(dial, inquiry, desk, address);
    let one = known_by(lost, &answer);
    let more = ask_all(dial, inquiry, lost, desk + 1, rest);
    joined(one, more)
}

/// Whether none that answers has a command, or heard of one, and one answers, or the whole hall is
/// new.
fn may_begin(known: KnownDesks, new_hall: bool) -> bool
    ensures { IsTrue result ↔ MayBegin new_hall known }
{
    known.have == 0 && known.had == 0 && (known.answers || new_hall)
}

/// Says why the store of this desk is not made, where it may not be.
fn tell_known<F: Write>(faults: &mut F, known: KnownDesks, desk: u8, may: bool)
    ensures { IsTrue may → Keeps (F.contents faults.old) (F.contents faults.new) }
{
    if may {
        return;
    }
    let (have, had) = (known.have, known.had);
    let page = "see HALL, 'A disk died'";
    if had > 0 {
        let _ = writeln!(
            faults,
            "desk {desk} had {had} commands: its file is lost; {page}"
        );
        return;
    }
    if have > 0 {
        let _ = writeln!(
            faults,
            "the day has begun with {have} commands: desk {desk} is not made; {page}"
        );
        return;
    }
    let what = "start another desk first, or if all desks are new take --new-hall";
    let _ = writeln!(faults, "no desk answers, desk {desk} is not made: {what}");
}

/// Asks the desks of a hall whether its day has begun, before the store of the desk of this number
/// is made, and returns whether it may be: none that answers has a command, or heard of one by this
/// desk; and one answers, or all desks of the hall are new. Where it may not, a line says so.
pub fn may_make<D: Dial, F: Write>(
    dial: &mut D,
    inquiry: Inquiry<'_>,
    desk: u8,
    new_hall: bool,
    faults: &mut F,
) -> bool
    requires { length inquiry.addresses.now ≤ 5 }
    ensures { MayMake inquiry.entry desk new_hall result (D.dialed dial.old) (D.dialed dial.new)
        (F.contents faults.old) (F.contents faults.new) }
{
    let known = ask_all(dial, inquiry, desk, 1, inquiry.addresses);
    let may = may_begin(known, new_hall);
    tell_known(faults, known, desk, may);
    may
}
