//! Messages from one desk to one or several.

ghost use Rattle.std.specs.Prelude.{◌≡◌, ◌∷◌, [], ◌<◌, IfOk};
ghost use Rattle.acceptor.specs.Messages.{message, to_each, without, desks_from, to_all, to_others};

use crate::NoMemory;
use crate::message::{Body, Message, Messages};
use std::alloc::Global;

/// The body to one desk. Where memory is refused, the answer is NoMemory.
pub fn to_one(alloc: Global, from: u8, to: u8, body: Body) -> Result<Messages, NoMemory>
    ensures { IfOk result (λ ms. ms ≡ message from to body ∷ []) }
{
    let message = Message { from, to, body };
    let mut messages = Vec::new(alloc);
    messages.push(message)?;
    Ok(Messages::from_vec(messages))
}

/// The body to each of the desks 1 to `desks` that is not among `heard`, in order of desk number.
/// Where memory is refused, the answer is NoMemory.
pub fn to_unheard(
    alloc: Global,
    desks: u8,
    from: u8,
    heard: &[u8],
    body: &Body,
) -> Result<Messages, NoMemory>
    requires { desks < 255 }
    ensures { let unheard = without (desks_from 1 desks) heard.now in
        IfOk result (λ ms. ms ≡ to_each from unheard body.now) }
{
    let mut messages = Vec::new(alloc);
    for to in 1..desks + 1 {
        if !heard.contains(&to) {
            let body = body.copy()?;
            messages.push(Message { from, to, body })?;
        }
    }
    Ok(Messages::from_vec(messages))
}

/// The body to every desk of 1 to `desks`, the sender too, in order of desk number. Where memory is
/// refused, the answer is NoMemory.
#[tactic(auto, using(crate::proofs::Sends::without_nobody))]
pub fn to_all(alloc: Global, desks: u8, from: u8, body: &Body) -> Result<Messages, NoMemory>
    requires { desks < 255 }
    ensures { IfOk result (λ ms. ms ≡ to_all desks from body.now) }
{
    to_unheard(alloc, desks, from, &[], body)
}

/// The body to every other desk of 1 to `desks`, in order of desk number. Where memory is refused,
/// the answer is NoMemory.
pub fn to_others(alloc: Global, desks: u8, from: u8, body: &Body) -> Result<Messages, NoMemory>
    requires { desks < 255 }
    ensures { IfOk result (λ ms. ms ≡ to_others desks from body.now) }
{
    to_unheard(alloc, desks, from, &[from], body)
}
