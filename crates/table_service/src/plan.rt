//! What is to be done for a request.

use acceptor::entry::Entry;

/// What is answered.
#[derive(Drop)]
pub(crate) enum PageReply {
    /// A line of text, with this status.
    Text(Problem),
    /// A page, with this status.
    Html { status: PageStatus, page: Vec<u8> },
    /// The style of the pages.
    Style,
    /// The script of the pages.
    Script,
    /// Another page is to be asked for.
    SeeOther { location: Vec<u8> },
}

/// Why there is no page.
#[derive(Clone, Copy)]
pub(crate) enum Problem {
    /// No page has such a form: 400.
    BadForm,
    /// The request is not from a page of the program's own: 403.
    Foreign,
    /// No page is at the path: 404.
    NotFound,
    /// The path is not to be asked with this method: 405.
    Method,
    /// There is no room for what was sent, or it was not kept, or no ids are left: 503.
    Busy,
}

/// What a page is sent as.
#[derive(Clone, Copy)]
pub(crate) enum PageStatus {
    /// As what was asked for, or to be confirmed: 200.
    Asked,
    /// As what was sent, with what is wrong with it: 422.
    Wrong,
}

/// What changes.
#[derive(Drop)]
pub(crate) enum Effect {
    /// Nothing.
    Nothing,
    /// The ids of a page are used.
    Ids,
    /// These entries are taken, in order.
    Take(Vec<Entry>),
    /// This entry is taken, under the first of the ids of a page, which are used; and the item of
    /// this id counts as answered.
    Again { entry: Entry, of: u64 },
    /// The item of this id counts as answered.
    Answer { of: u64 },
}

/// What is to be done for a request.
#[derive(Drop)]
pub(crate) struct RequestPlan {
    pub(crate) reply: PageReply,
    pub(crate) effect: Effect,
}

impl RequestPlan {
    ghost use Rattle.std.specs.Prelude.{◌≡◌};

    /// No page, and why.
    pub(crate) fn problem(problem: Problem) -> RequestPlan
        ensures { result ≡ record { reply = PageReply.Text problem; effect = Effect.Nothing } }
    {
        RequestPlan {
            reply: PageReply::Text(problem),
            effect: Effect::Nothing,
        }
    }

    /// A page that has forms.
    pub(crate) fn with_ids(status: PageStatus, page: Vec<u8>) -> RequestPlan
        ensures { result ≡ record { reply = PageReply.Html status page; effect = Effect.Ids } }
    {
        RequestPlan {
            reply: PageReply::Html { status, page },
            effect: Effect::Ids,
        }
    }

    /// What is at a path.
    pub(crate) fn shown(reply: PageReply) -> RequestPlan
        ensures { result ≡ record { reply = reply; effect = Effect.Nothing } }
    {
        RequestPlan {
            reply,
            effect: Effect::Nothing,
        }
    }

    /// Another page is to be asked for.
    pub(crate) fn see(location: Vec<u8>, effect: Effect) -> RequestPlan
        ensures { result ≡ record { reply = PageReply.SeeOther location; effect = effect } }
    {
        RequestPlan {
            reply: PageReply::SeeOther { location },
            effect,
        }
    }
}
