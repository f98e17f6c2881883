//! A client's question, from the bytes that it writes to what it makes of the desk's answer.

ghost use Rattle.desk_laws.specs.Questions.{AnswersAreJudged, LogIsAsked, QuestionsAreAnswered};
ghost use Rattle.desk_laws.specs.Questions.{QuestionsAreTaken, QuestionsUnderAKey};

/// A law. A client writes the question of one frame, and a front part of that comes to a desk,
/// which serves what comes. A front part of what it answers comes to the client, with a whole
/// frame. Then the desk has begun just this frame (`answered`), it was asked just what the frame
/// says (`taken`), and what the client gives is just what the desk answered: that, or its refusal
/// (`judged`). Under a key of the desk the same holds of what is given to one end of the connection
/// and what the other end hands on (`sealed`). There are such questions (`example`).
pub fn questions_are_answered()
    ensures taken { QuestionsAreTaken }
    ensures judged { AnswersAreJudged }
    ensures answered { QuestionsAreAnswered }
    ensures sealed { QuestionsUnderAKey }
    ensures example { LogIsAsked }
{}
