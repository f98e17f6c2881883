//! What follows of serving many clients, whatever came of them.

ghost use Rattle.multiplex.specs.EachClient.{EachClientIsServed, EachDeliversUnderHall};
ghost use Rattle.multiplex.specs.{EachClient.TicksNeedAPeriod, SharedTurns.TurnsAreShared};

use answers::Desk;

/// Where `serve_each` served clients, the frames that were begun were served and the desk's own
/// Ticks were taken one after the other, whichever clients the frames were of, and the calls of all
/// lead from the node before to the node after. What a client gave was let in as the doors admit
/// it, and its frames are first in what was let in, each served as far as the caller may ask. What
/// it took is the desk's preface, where there is one, and then the answers to its own frames, in
/// order, as they are or as records, and of these a front part where its connection was ended
/// early. So no client is given another one's answers, however reads and writes were cut, and none
/// is answered a Tick that it did not send.
pub fn each_client_is_served<D: Desk>()
    ensures { EachClientIsServed D.Desk }
{}

/// At a desk with a key, each frame of a client that delivers a message is in records that fit
/// under the hall's key, of what the client gave: a law.
pub fn each_delivers_under_hall()
    ensures { EachDeliversUnderHall }
{}

/// Where no period was asked for, the desk never gives itself a Tick.
pub fn ticks_need_a_period<D: Desk>()
    ensures { TicksNeedAPeriod D.Desk }
{}

/// Wherever one looks into serving: from there on at most one frame that is no message of a desk to
/// a desk was begun in each turn of a client, and at most one more than rounds were over that asks
/// for a sheet or for entries of the log. Each client that is ready is named once in a round, so
/// between two turns of one that is ready again at the next round the others had one turn each in
/// each of the two rounds, of one such frame, and two at most of these asked for such.
pub fn turns_are_shared<D: Desk>()
    ensures { TurnsAreShared D.Desk }
{}
