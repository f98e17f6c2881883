//! The way of a message from desk to desk.

ghost use Rattle.desk_laws.specs.Ways.{MessagesComeAsPushed};

/// A law. The link of a desk holds a connection under the hall's key to another desk, and a front
/// part of what the link's end sent came there. Then each frame that delivers a message there was
/// pushed to the link, and so were the frames that were begun before it, in the order of their
/// pushes. So on the way over link, sealed stream and reader no message is changed, doubled or made
/// up.
///
/// What stays assumed is that the records which fit under the hall's key were sent by the end of
/// such a link, over this connection and in this direction.
pub fn messages_come_as_pushed()
    ensures { MessagesComeAsPushed }
{}
