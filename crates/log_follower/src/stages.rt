//! What the last answer was worth, and what is to be done.

/// What came of the last question for the log of the desk that is followed.
#[derive(Clone, Copy, PartialEq, Eq, Debug)]
pub enum AnswerWorth {
    /// Nothing yet: it is not answered, or none was asked over the connection.
    Open,
    /// It was answered with something of use.
    Useful,
    /// What came for it brings nothing: the connection is to be closed.
    Useless,
    /// Two desks of the hall reported different entries: nothing is asked any more.
    Differs,
}

/// What is to be done now. Desks are numbered from 1.
#[derive(Clone, Copy, PartialEq, Eq, Debug)]
pub enum FollowAction {
    /// Nothing.
    Rest,
    /// Open a connection to this desk: call `opened` of the connection once it is open, or `lost`.
    Open { desk: u8 },
    /// Ask this desk, over the connection, for what its log has beyond the entries that are held.
    Ask { desk: u8 },
    /// Close the connection to this desk, or give up opening it. No call is to be made.
    Close { desk: u8 },
    /// Close the connection, if there is one, and say loudly that the hall is broken.
    Stop,
}
