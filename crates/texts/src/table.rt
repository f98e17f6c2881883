//! The commands, as one table.

ghost use Rattle.std.specs.Prelude.{◌≡◌, bytes_eq, find, map, option_map};
ghost use Rattle.texts.specs.Table.{is_rest, kind_at, plain, row_named, row_of, same_tag};

/// What is in a field of a command.
#[derive(Clone, Copy)]
pub enum FieldKind {
    Number,
    Name,
    NewName,
    Event,
    Round,
    Format,
    Cutoff,
    Limit,
    Advance,
    Attempt,
    Moves,
    Outcome,
    Edition,
    /// The values of the attempts that count.
    Was,
    /// The attempts that are to count. Those that stay are among those of the field before.
    Now,
}

impl FieldKind {
    /// Whether it is all that is left of a text, spaces too.
    pub fn is_rest(self) -> bool
        ensures { result ≡ is_rest self }
    {
        matches!(
            self,
            FieldKind::Name
                | FieldKind::NewName
                | FieldKind::Moves
                | FieldKind::Outcome
                | FieldKind::Now
        )
    }
}

/// Which command it is.
#[derive(Clone, Copy, PartialEq, Eq)]
pub enum Tag {
    Register,
    Open,
    Enter,
    Scramble,
    Attempt,
    Correct,
    Strike,
    SetAdvance,
    Close,
    SetEdition,
    Rename,
    SetRound,
    Rescramble,
    Withdraw,
    Reopen,
    Card,
    Fix,
    Cancel,
}

/// A row of the table: a command.
#[derive(Clone, Copy)]
pub struct Row<Word, Fields> {
    /// What is before the first space.
    pub word: Word,
    /// The edition since which it is.
    pub since: u8,
    /// What its fields are, in order.
    pub fields: Fields,
    /// Whether a remark may end it.
    pub takes_remark: bool,
    /// Which command it is.
    pub tag: Tag,
}

/// The commands: how each is spelled, since which edition. What is read, printed and asked of a
/// text's fields follows from its row.
pub const ROWS: [Row<&[u8], &[FieldKind]>; 18] = [
    Row {
        word: b"REG",
        since: 1,
        fields: &[FieldKind::Number, FieldKind::Name],
        takes_remark: false,
        tag: Tag::Register,
    },
    Row {
        word: b"OPEN",
        since: 1,
        fields: &[
            FieldKind::Event,
            FieldKind::Round,
            FieldKind::Format,
            FieldKind::Cutoff,
            FieldKind::Limit,
            FieldKind::Advance,
        ],
        takes_remark: false,
        tag: Tag::Open,
    },
    Row {
        word: b"ENT",
        since: 1,
        fields: &[FieldKind::Event, FieldKind::Number],
        takes_remark: false,
        tag: Tag::Enter,
    },
    Row {
        word: b"SCR",
        since: 1,
        fields: &[
            FieldKind::Event,
            FieldKind::Round,
            FieldKind::Attempt,
            FieldKind::Moves,
        ],
        takes_remark: false,
        tag: Tag::Scramble,
    },
    Row {
        word: b"ATT",
        since: 1,
        fields: &[
            FieldKind::Event,
            FieldKind::Round,
            FieldKind::Attempt,
            FieldKind::Number,
            FieldKind::Outcome,
        ],
        takes_remark: true,
        tag: Tag::Attempt,
    },
    Row {
        word: b"COR",
        since: 1,
        fields: &[
            FieldKind::Event,
            FieldKind::Round,
            FieldKind::Attempt,
            FieldKind::Number,
            FieldKind::Outcome,
        ],
        takes_remark: true,
        tag: Tag::Correct,
    },
    Row {
        word: b"STR",
        since: 1,
        fields: &[FieldKind::Event, FieldKind::Round, FieldKind::Number],
        takes_remark: true,
        tag: Tag::Strike,
    },
    Row {
        word: b"ADV",
        since: 1,
        fields: &[FieldKind::Event, FieldKind::Round, FieldKind::Advance],
        takes_remark: false,
        tag: Tag::SetAdvance,
    },
    Row {
        word: b"CLOSE",
        since: 1,
        fields: &[FieldKind::Event, FieldKind::Round],
        takes_remark: false,
        tag: Tag::Close,
    },
    Row {
        word: b"EDITION",
        since: 1,
        fields: &[FieldKind::Edition],
        takes_remark: false,
        tag: Tag::SetEdition,
    },
    Row {
        word: b"REN",
        since: 3,
        fields: &[FieldKind::Number, FieldKind::NewName],
        takes_remark: false,
        tag: Tag::Rename,
    },
    Row {
        word: b"SET",
        since: 3,
        fields: &[
            FieldKind::Event,
            FieldKind::Round,
            FieldKind::Format,
            FieldKind::Cutoff,
            FieldKind::Limit,
        ],
        takes_remark: false,
        tag: Tag::SetRound,
    },
    Row {
        word: b"RSC",
        since: 3,
        fields: &[
            FieldKind::Event,
            FieldKind::Round,
            FieldKind::Attempt,
            FieldKind::Moves,
        ],
        takes_remark: false,
        tag: Tag::Rescramble,
    },
    Row {
        word: b"WDR",
        since: 3,
        fields: &[FieldKind::Event, FieldKind::Round, FieldKind::Number],
        takes_remark: true,
        tag: Tag::Withdraw,
    },
    Row {
        word: b"REOPEN",
        since: 3,
        fields: &[FieldKind::Event, FieldKind::Round],
        takes_remark: false,
        tag: Tag::Reopen,
    },
    Row {
        word: b"CARD",
        since: 4,
        fields: &[
            FieldKind::Event,
            FieldKind::Round,
            FieldKind::Number,
            FieldKind::Was,
            FieldKind::Now,
        ],
        takes_remark: true,
        tag: Tag::Card,
    },
    Row {
        word: b"FIX",
        since: 4,
        fields: &[
            FieldKind::Event,
            FieldKind::Round,
            FieldKind::Number,
            FieldKind::Was,
            FieldKind::Now,
        ],
        takes_remark: true,
        tag: Tag::Fix,
    },
    Row {
        word: b"CANCEL",
        since: 4,
        fields: &[FieldKind::Event, FieldKind::Round],
        takes_remark: false,
        tag: Tag::Cancel,
    },
];

/// A row of the table.
pub type CommandRow = Row<&'static [u8], &'static [FieldKind]>;

/// The first of these rows that has a word.
fn with_word<'a>(rows: &'a [CommandRow], word: &[u8]) -> Option<&'a CommandRow>
    ensures { option_map (λ row. plain row.now) result
        ≡ find (λ row. bytes_eq row.word word.now) (map plain rows.now) }
{
    for row in rows {
        if row.word == word {
            return Some(row);
        }
    }
    None
}

/// The first of these rows that has a tag.
fn with_tag<'a>(rows: &'a [CommandRow], tag: Tag) -> Option<&'a CommandRow>
    ensures { option_map (λ row. plain row.now) result
        ≡ find (λ row. same_tag row.tag tag) (map plain rows.now) }
{
    for row in rows {
        if row.tag == tag {
            return Some(row);
        }
    }
    None
}

/// The row of a word; none where it is no command's.
#[tactic(auto, unfolding(crate::specs::Table::rows))]
pub fn row_named(word: &[u8]) -> Option<&'static CommandRow>
    ensures { option_map (λ row. plain row.now) result ≡ row_named word.now }
{
    with_word(&ROWS, word)
}

/// The row of a tag: each has one.
#[tactic(auto, unfolding(crate::specs::Table::rows))]
pub fn row_of(tag: Tag) -> Option<&'static CommandRow>
    ensures { option_map (λ row. plain row.now) result ≡ row_of tag }
{
    with_tag(&ROWS, tag)
}

/// What the field with an index, counted from 1, is after a word; none after the last one, and none
/// after what is no command's word.
pub fn kind_at(word: &[u8], index: u8) -> Option<FieldKind>
    ensures { result ≡ kind_at word.now index }
{
    let row = row_named(word)?;
    row.fields
        .get(usize::from(index).saturating_sub(1))
        .copied()
}
