//! What holds of each browser of many, whatever came of them.

ghost use Rattle.pages.specs.Browsers.{EachBrowserIsAnswered};
ghost use Rattle.pages.specs.Laws.{EachCallIsAnswered, RoundsFollow};

use crate::browsers::Browsers;
use http_server::Service;
use polled::Sockets;

/// After any rounds, however reads and writes were cut and whichever browsers have gone: what a
/// browser's connection handed out is a front part of the answers to the requests that it heard, in
/// order, as `http_server` says it of one connection. Where the sockets tell what happened, this is
/// what the browser took, and what it heard is first in what the browser gave. So none is handed
/// what is another one's.
pub fn each_browser_is_answered<C: Sockets + Drop>(browsers: &Browsers<C>)
    ensures { EachBrowserIsAnswered C.happened browsers.now }
{
    let _browsers = browsers;
}

/// Rounds that follow on each other are one: where a service answered the turns of the first, and
/// then from the state in which it was left those of the second, it answered the turns of both.
pub fn rounds_follow<S: Service>()
    ensures { RoundsFollow S.answers }
{}

/// After any rounds from the first one on, each call of each browser's connection is one in which
/// the service gave that response to that request. With the first law: each whole answer to a
/// request for which the service was called has the status, the fields and the body that the
/// service's own contract gives to it.
pub fn each_call_is_answered<S: Service>()
    ensures { EachCallIsAnswered S.answers }
{}
