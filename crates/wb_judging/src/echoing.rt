//! The echo that a report has besides, under our own number.
ghost use Rattle.std.specs.Prelude.{◌≡◌, IfOk, filter, nat_lt};
ghost use Rattle.wb_judging.specs.Echoing.{echoing, placed, with_echo};

use std::alloc::{AllocError, Global};
use wb_codec::Datagram;
use wb_names::{Echo, Echoes};

/// A datagram with this echo besides, if it is a report.
pub(crate) fn echoing(
    alloc: Global,
    echo: Option<Echo>,
    datagram: Datagram,
) -> Result<Datagram, AllocError>
    ensures { IfOk result (λ v. v ≡ echoing echo datagram) }
{
    match datagram {
        Datagram::Session {
            sender,
            sent,
            page,
            marks,
            echoes,
        } => Ok(Datagram::Session {
            sender,
            sent,
            page,
            marks,
            echoes: with_echo(alloc, echo, echoes)?,
        }),
        Datagram::Draw(drawop) => Ok(Datagram::Draw(drawop)),
        Datagram::Request { asker, name } => Ok(Datagram::Request { asker, name }),
        Datagram::AskPages { asker } => Ok(Datagram::AskPages { asker }),
        Datagram::PageState {
            sender,
            page,
            marks,
        } => Ok(Datagram::PageState {
            sender,
            page,
            marks,
        }),
    }
}

/// Echoes with this one besides, unless they are as many as there may be.
fn with_echo(alloc: Global, echo: Option<Echo>, echoes: Echoes) -> Result<Echoes, AllocError>
    ensures { IfOk result (λ all. all ≡ with_echo echo echoes) }
{
    let Some(echo) = echo else {
        return Ok(echoes);
    };
    if echoes.as_slice().len() >= Echoes::MAX_LEN {
        return Ok(echoes);
    }
    let all = placed(alloc, echo, echoes.as_slice())?;
    Ok(Echoes::from_ascending(all))
}

/// Echoes with one besides, at its place by source.
fn placed(alloc: Global, echo: Echo, echoes: &[Echo]) -> Result<Vec<Echo>, AllocError>
    ensures { IfOk result (λ all. all.items ≡ placed echo echoes.now) }
{
    let mut all = below(alloc, echo.source, echoes)?;
    all.push(echo)?;
    let above = above(alloc, echo.source, echoes)?;
    all.extend_from_slice(above.as_slice())?;
    Ok(all)
}

/// The echoes of lesser sources.
fn below(alloc: Global, source: u32, echoes: &[Echo]) -> Result<Vec<Echo>, AllocError>
    ensures { IfOk result (λ all. all.items ≡ filter (λ f. nat_lt f.source source) echoes.now) }
{
    let below = echoes.iter().filter(|echo| echo.source < source);
    below.copied().collect(alloc)
}

/// The echoes of greater sources.
fn above(alloc: Global, source: u32, echoes: &[Echo]) -> Result<Vec<Echo>, AllocError>
    ensures { IfOk result (λ all. all.items ≡ filter (λ f. nat_lt source f.source) echoes.now) }
{
    let above = echoes.iter().filter(|echo| source < echo.source);
    above.copied().collect(alloc)
}
