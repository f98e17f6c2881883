//! The page that shows which commands would be entered.

ghost use Rattle.std.specs.Prelude.{◌≡◌, ◌++◌, IfOk, OnOk, count_by, flat_map};
ghost use Rattle.table_people_views.specs.Preview.{back_line, enter_words, entered_all};
ghost use Rattle.table_people_views.specs.Preview.{entered_item, entered_line, entered_list};
ghost use Rattle.table_people_views.specs.Preview.{entered_text, is_entered, leaver, leaver_name};
ghost use Rattle.table_people_views.specs.Preview.{leaver_of, lists, preview_page, preview_section};
ghost use Rattle.table_people_views.specs.Preview.{refused_item, refused_line, refused_list};
ghost use Rattle.table_people_views.specs.Preview.{sent_line, told, would_enter};

use acceptor::NoMemory;
use commands::Meet;
use markup::Piece::{Html, Number, Text};
use markup::fill;
use std::alloc::{AllocError, Global};
use table_views::{
    ENTERS, PageContext, commands_word, id_at, push_bottom, push_line, push_lines_form, push_name,
    start_page,
};
use texts::meanings::meaning_of;
use texts::{Answer, Code, Command, CommandFault, read};

/// A command, and what it would be answered.
#[derive(Clone, Copy)]
pub struct PreviewedCommand<'a> {
    /// The command, as it would be sent.
    pub text: &'a [u8],
    pub answer: Answer,
}

/// Whether a command would be entered.
fn is_entered(answer: Answer) -> bool
    ensures { result ≡ is_entered answer }
{
    match answer {
        Answer::Done => true,
        Answer::Refused(_) => false,
    }
}

/// How many of the commands would be entered.
fn count_entered(tried: &[PreviewedCommand<'_>]) -> usize
    ensures { result ≡ count_by would_enter tried.now }
{
    tried.iter().filter(|one| is_entered(one.answer)).count()
}

const REFUSED_ITEM: &[u8] = b"<li><code>$</code> <em>$</em></li>\n";

/// Adds a command that would be refused, and why.
fn push_refused_item<'a>(out: &mut Vec<u8>, text: &'a [u8], code: Code) -> Result<(), NoMemory>
    ensures { OnOk result (out.new.items ≡ out.old.items ++ refused_item text.now code) }
{
    fill(
        out,
        REFUSED_ITEM,
        &[Text(text), Html(meaning_of(code).as_bytes())],
    )
}

/// Adds those of the commands that would be refused, each with why.
fn push_refused_lines(out: &mut Vec<u8>, tried: &[PreviewedCommand<'_>]) -> Result<(), NoMemory>
    ensures { OnOk result (out.new.items ≡ out.old.items ++ flat_map refused_line tried.now) }
{
    for one in tried {
        if let Answer::Refused(code) = one.answer {
            push_refused_item(out, one.text, code)?;
        }
    }
    Ok(())
}

/// Adds those that would be refused, where there are any.
#[tactic(auto, unfolding(crate::specs::Preview::refused_list))]
fn push_refused(
    out: &mut Vec<u8>,
    refused: usize,
    tried: &[PreviewedCommand<'_>],
) -> Result<(), NoMemory>
    ensures { OnOk result (out.new.items ≡ out.old.items ++ refused_list refused tried.now) }
{
    if refused == 0 {
        return Ok(());
    }
    out.extend_from_slice(b"<h2>Not entered</h2>\n<ol>\n")?;
    push_refused_lines(out, tried)?;
    out.extend_from_slice(b"</ol>\n")
}

/// Who is withdrawn by a command, if it is one that withdraws.
fn leaver_of(command: Command) -> Option<u16>
    ensures { result ≡ leaver_of command }
{
    match command {
        Command::Withdraw { number, .. } => Some(number),
        _ => None,
    }
}

/// Who is withdrawn by the command that a text spells, if it is one that withdraws.
fn leaver(alloc: Global, text: &[u8]) -> Result<Option<u16>, NoMemory>
    ensures { IfOk result (λ number. number ≡ leaver text.now) }
{
    match read(alloc, text) {
        Ok(told) => Ok(leaver_of(told.command)),
        Err(CommandFault::NoMemory) => Err(AllocError),
        Err(CommandFault::TooLong | CommandFault::NotACommand | CommandFault::BadField { .. }) =>
            Ok(None),
    }
}

/// Adds the name of a competitor, if one is withdrawn.
fn push_leaver(out: &mut Vec<u8>, meet: &Meet, number: Option<u16>) -> Result<(), NoMemory>
    ensures { OnOk result (out.new.items
        ≡ out.old.items ++ leaver_name meet.now.accepted number) }
{
    let Some(number) = number else {
        return Ok(());
    };
    out.extend_from_slice(b" <bdi>")?;
    push_name(out, meet, number)?;
    out.extend_from_slice(b"</bdi>")
}

const TEXT: &[u8] = b"<li><code>$</code>";

fn push_text(out: &mut Vec<u8>, text: &[u8]) -> Result<(), NoMemory>
    ensures { OnOk result (out.new.items ≡ out.old.items ++ entered_text text.now) }
{
    fill(out, TEXT, &[Text(text)])
}

/// Adds a command that would be entered, with the name of whom it withdraws.
#[tactic(auto, unfolding(crate::specs::Preview::entered_item))]
fn push_entered_item(out: &mut Vec<u8>, meet: &Meet, text: &[u8]) -> Result<(), NoMemory>
    ensures { OnOk result (out.new.items
        ≡ out.old.items ++ entered_item meet.now.accepted text.now) }
{
    let number = leaver(*out.allocator(), text)?;
    push_text(out, text)?;
    push_leaver(out, meet, number)?;
    out.extend_from_slice(b"</li>\n")
}

/// Adds those of the commands that would be entered.
fn push_entered_lines(
    out: &mut Vec<u8>,
    meet: &Meet,
    tried: &[PreviewedCommand<'_>],
) -> Result<(), NoMemory>
    ensures { OnOk result (out.new.items
        ≡ out.old.items ++ flat_map (entered_line meet.now.accepted) tried.now) }
{
    for one in tried {
        if is_entered(one.answer) {
            push_entered_item(out, meet, one.text)?;
        }
    }
    Ok(())
}

/// The lines of the form: the commands that would be entered.
fn sent_lines(alloc: Global, tried: &[PreviewedCommand<'_>]) -> Result<Vec<u8>, NoMemory>
    ensures { IfOk result (λ lines. lines.items ≡ flat_map sent_line tried.now) }
{
    let mut lines = Vec::new(alloc);
    for one in tried {
        if is_entered(one.answer) {
            push_line(&mut lines, one.text)?;
        }
    }
    Ok(lines)
}

const ENTER_WORDS: &[u8] = b"Enter $$";

/// What the button of the form says.
fn enter_words(alloc: Global, count: usize) -> Result<Vec<u8>, NoMemory>
    ensures { IfOk result (λ words. words.items ≡ enter_words count) }
{
    let mut words = Vec::new(alloc);
    fill(
        &mut words,
        ENTER_WORDS,
        &[Number(count as u64), Html(commands_word(count))],
    )?;
    Ok(words)
}

/// Adds those that would be entered, and the form that enters them.
fn push_entered_all(
    out: &mut Vec<u8>,
    around: &PageContext<'_>,
    back: &[u8],
    entered: usize,
    tried: &[PreviewedCommand<'_>],
) -> Result<(), NoMemory>
    ensures { OnOk result (out.new.items
        ≡ out.old.items ++ entered_all around.entry.now back.now entered tried.now) }
{
    let lines = sent_lines(*out.allocator(), tried)?;
    let words = enter_words(*out.allocator(), entered)?;
    out.extend_from_slice(b"<h2>To enter</h2>\n<ol>\n")?;
    push_entered_lines(out, around.mirror.meet(), tried)?;
    out.extend_from_slice(b"</ol>\n")?;
    let id = id_at(around.ids, 0);
    push_lines_form(out, ENTERS, around.token, id, back, &lines, &words)
}

/// Adds those that would be entered, and the form that enters them, where there are any.
fn push_entered(
    out: &mut Vec<u8>,
    around: &PageContext<'_>,
    back: &[u8],
    entered: usize,
    tried: &[PreviewedCommand<'_>],
) -> Result<(), NoMemory>
    ensures { OnOk result (out.new.items
        ≡ out.old.items ++ entered_list around.entry.now back.now entered tried.now) }
{
    if entered == 0 {
        Ok(())
    } else {
        push_entered_all(out, around, back, entered, tried)
    }
}

const BACK: &[u8] = b"<p><a href=\"$\">Back, and enter nothing</a></p></section>\n";

/// Adds a link to the page that the commands came from.
fn push_back<'a>(out: &mut Vec<u8>, back: &'a [u8]) -> Result<(), NoMemory>
    ensures { OnOk result (out.new.items ≡ out.old.items ++ back_line back.now) }
{
    fill(out, BACK, &[Text(back)])
}

const TOLD: &[u8] = b"\
<section><h1>What would be entered</h1>
<p class=\"told\">$$ would be entered, and $ would not.</p>
";

/// Adds how many of the commands would be entered, and how many refused.
fn push_told(out: &mut Vec<u8>, entered: usize, refused: usize) -> Result<(), NoMemory>
    ensures { OnOk result (out.new.items ≡ out.old.items ++ told entered refused) }
{
    fill(
        out,
        TOLD,
        &[
            Number(entered as u64),
            Html(commands_word(entered)),
            Number(refused as u64),
        ],
    )
}

/// Adds the section of commands of which this many would be entered, and this many refused.
#[tactic(auto, unfolding(crate::specs::Preview::lists))]
fn push_lists(
    out: &mut Vec<u8>,
    around: &PageContext<'_>,
    back: &[u8],
    entered: usize,
    refused: usize,
    tried: &[PreviewedCommand<'_>],
) -> Result<(), NoMemory>
    ensures { OnOk result (out.new.items
        ≡ out.old.items ++ lists around.entry.now back.now entered refused tried.now) }
{
    push_told(out, entered, refused)?;
    push_refused(out, refused, tried)?;
    push_entered(out, around, back, entered, tried)?;
    push_back(out, back)
}

/// Adds the section of the commands.
fn push_section(
    out: &mut Vec<u8>,
    around: &PageContext<'_>,
    back: &[u8],
    tried: &[PreviewedCommand<'_>],
) -> Result<(), NoMemory>
    ensures { OnOk result (out.new.items
        ≡ out.old.items ++ preview_section around.entry.now back.now tried.now) }
{
    let entered = count_entered(tried);
    push_lists(
        out,
        around,
        back,
        entered,
        tried.len().saturating_sub(entered),
        tried,
    )
}

/// The page that shows which of some commands would be entered: how many of them; those that would
/// be refused, each with why; those that would be entered, each with the name of whom it withdraws;
/// and a form that enters these, to `/commands`, where there are any. After it the browser goes to
/// the path `back`, as it does by a link that enters nothing. Nothing is entered by showing it.
pub fn preview_page(
    alloc: Global,
    around: &PageContext<'_>,
    back: &[u8],
    tried: &[PreviewedCommand<'_>],
) -> Result<Vec<u8>, NoMemory>
    ensures { IfOk result (λ page. page.items
        ≡ preview_page around.entry.now back.now tried.now) }
{
    let mut page = start_page(alloc, around, b"What would be entered")?;
    push_section(&mut page, around, back, tried)?;
    push_bottom(&mut page)?;
    Ok(page)
}
