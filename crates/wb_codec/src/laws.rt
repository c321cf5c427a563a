//! Laws of datagrams as bytes and of drawops as records. Each function stands here for its
//! contract, which is a law for callers to cite.

ghost use Rattle.std.specs.Prelude.{◌≡◌};
ghost use Rattle.wb_codec.specs.declared.datagram.Datagram.{Datagram as DatagramValue};
ghost use Rattle.wb_codec.specs.Laws.{OneDatagram, ReadsSpellings, SpellsReadings, PrefixesAreShort, LongerAreTrailing, OneDrawop};
ghost use Rattle.wb_codec.specs.Spelling.{spelling};
ghost use Rattle.wb_codec.specs.Ranges.{IsPage, IsName, IsEcho, IsMarkList, IsEchoList, IsSession, IsPageState, IsDatagram};
ghost use Rattle.wb_codec.specs.Rows.{row};
ghost use Rattle.wb_codec.specs.Vectors.{line, line_bytes, line_row, delete, delete_row, restore, restore_bytes, text, text_row, long_text, long_text_bytes};
ghost use Rattle.wb_codec.specs.Vectors.{session, session_bytes, request, request_bytes, ask_pages, ask_pages_bytes, page_state, page_state_bytes};

use crate::datagram::Datagram;
use crate::row::to_row;
use wb_names::{Echo, Echoes, Marks, Name, PageId};

// Each of these reads the fields of a value, whose types tell their ranges.

fn page_is_in_range(page: PageId)
    ensures { IsPage page }
{
    let _ = (page.creator, page.number);
}

fn name_is_in_range(name: Name)
    ensures { IsName name }
{
    let _ = (name.source(), name.page(), name.seq());
}

fn echo_is_in_range(echo: Echo)
    ensures { IsEcho echo }
{
    let _ = (echo.source, echo.sent, echo.held);
}

fn marks_are_in_range(marks: &Marks)
    ensures { IsMarkList marks.now }
{
    let marks = marks.as_slice();
    for mark in marks {
        let _ = (mark.source(), mark.high());
    }
}

fn echoes_are_in_range(echoes: &Echoes)
    ensures { IsEchoList echoes.now }
{
    let echoes = echoes.as_slice();
    for echo in echoes {
        echo_is_in_range(*echo);
    }
}

fn session_is_in_range(sender: u32, sent: u64, page: PageId, marks: &Marks, echoes: &Echoes)
    ensures { IsSession sender sent page marks.now echoes.now }
{
    page_is_in_range(page);
    marks_are_in_range(marks);
    echoes_are_in_range(echoes);
}

fn request_is_in_range(asker: u32, name: Name)
    ensures { IsDatagram (DatagramValue.Request asker name) }
{
    name_is_in_range(name);
}

fn ask_pages_is_in_range(asker: u32)
    ensures { IsDatagram (DatagramValue.AskPages asker) }
{}

fn page_state_is_in_range(sender: u32, page: PageId, marks: &Marks)
    ensures { IsPageState sender page marks.now }
{
    page_is_in_range(page);
    marks_are_in_range(marks);
}

/// Each datagram that can be made has all its fields in range, so that `write` spells it and `read`
/// gives it back.
pub fn datagrams_are_in_range(datagram: &Datagram)
    ensures { IsDatagram datagram.now }
{
    match datagram {
        Datagram::Draw(drawop) => {
            let _ = to_row(drawop);
        }
        Datagram::Session {
            sender,
            sent,
            page,
            marks,
            echoes,
        } => session_is_in_range(*sender, *sent, *page, marks, echoes),
        Datagram::Request { asker, name } => request_is_in_range(*asker, *name),
        Datagram::AskPages { asker } => ask_pages_is_in_range(*asker),
        Datagram::PageState {
            sender,
            page,
            marks,
        } => page_state_is_in_range(*sender, *page, marks),
    }
}

/// What was spelled is read, and what is read was spelled so. No two datagrams share a spelling.
#[tactic(auto, using(crate::proofs::GrammarLaws::reading_again))]
pub fn reading_undoes_spelling()
    ensures reads { ReadsSpellings }
    ensures spells { SpellsReadings }
    ensures one { OneDatagram }
{}

/// Bytes that end before a datagram does are short, and bytes after a datagram are trailing,
/// whatever they are.
#[tactic(auto, using(crate::proofs::GrammarLaws::whole_datagrams))]
pub fn only_whole_datagrams_are_read()
    ensures short { PrefixesAreShort }
    ensures trailing { LongerAreTrailing }
{}

/// No two drawops share a record.
pub fn records_tell_drawops_apart()
    ensures { OneDrawop }
{}

/// The layout, byte by byte, of a datagram of each kind, and of drawops that only version 2 says.
pub fn datagrams_have_these_bytes()
    ensures line { spelling (DatagramValue.Draw line) ≡ line_bytes }
    ensures restore { spelling (DatagramValue.Draw restore) ≡ restore_bytes }
    ensures long_text { spelling (DatagramValue.Draw long_text) ≡ long_text_bytes }
    ensures session { spelling session ≡ session_bytes }
    ensures request { spelling request ≡ request_bytes }
    ensures ask_pages { spelling ask_pages ≡ ask_pages_bytes }
    ensures page_state { spelling page_state ≡ page_state_bytes }
{}

/// The layout, word by word, of records.
pub fn drawops_have_these_words()
    ensures line { row line ≡ line_row }
    ensures delete { row delete ≡ delete_row }
    ensures text { row text ≡ text_row }
{}
