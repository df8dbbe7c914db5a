//! The cross reference of a listing.
ghost use Rattle.std.specs.Prelude.{◌≡◌, ◌++◌, None, unwrap_or, OnOk};
ghost use Rattle.host_sources.specs.Symbols.{meaning_in};
ghost use Rattle.source_listing.specs.References.{spot_text, opening_text, is_same_spot, mention_text, ending_text, cross_text};

use crate::references::Mention;
use crate::spots::Spot;
use crate::tables::put_symbol;
use host_sources::value_by_number;
use source_places::put_number;
use std::alloc::AllocError;
use std::collections::BTreeMap;

/// Puts mentions that stand by their names: each name once, with its value and the lines at which it is named, each once.
pub(crate) fn put_cross(
    text: &mut Vec<u8>,
    several: bool,
    symbols: &BTreeMap<u64, u16>,
    mentions: &[Mention],
) -> Result<(), AllocError>
    ensures { OnOk result (text.new.items ≡ text.old.items ++ cross_text several (meaning_in symbols.now) None
        mentions.now) }
{
    let mut before = None;
    let mut rest = mentions;
    while let [mention, others @ ..] = rest {
        put_mention(text, several, symbols, before, *mention)?;
        before = Some(*mention);
        rest = others;
    }
    put_ending(text, before)?;
    Ok(())
}

/// Puts the end of the last line, if there is one.
fn put_ending(text: &mut Vec<u8>, before: Option<Mention>) -> Result<(), AllocError>
    ensures { OnOk result (text.new.items ≡ text.old.items ++ ending_text before) }
{
    match before {
        Some(_) => {
            text.extend_from_slice(b"\n")?;
            Ok(())
        }
        None => Ok(()),
    }
}

/// Puts a mention after another one, if there is one.
fn put_mention(
    text: &mut Vec<u8>,
    several: bool,
    symbols: &BTreeMap<u64, u16>,
    before: Option<Mention>,
    mention: Mention,
) -> Result<(), AllocError>
    ensures { OnOk result (text.new.items ≡ text.old.items ++ mention_text several (meaning_in symbols.now)
        before mention) }
{
    match before {
        None => put_opening(text, several, symbols, mention),
        Some(before) => {
            if before.name != mention.name {
                text.extend_from_slice(b"\n")?;
                return put_opening(text, several, symbols, mention);
            }
            if is_same_spot(before.spot, mention.spot) {
                return Ok(());
            }
            text.extend_from_slice(b" ")?;
            put_spot(text, several, mention.spot)
        }
    }
}

/// Whether two spots are the same.
fn is_same_spot(a: Spot, b: Spot) -> bool
    ensures { result ≡ is_same_spot a b }
{
    a.source == b.source && a.line == b.line
}

/// Puts a name with its value and the first of its lines.
fn put_opening(
    text: &mut Vec<u8>,
    several: bool,
    symbols: &BTreeMap<u64, u16>,
    mention: Mention,
) -> Result<(), AllocError>
    ensures { OnOk result (text.new.items ≡ text.old.items ++ opening_text several (meaning_in symbols.now)
        mention) }
{
    let value = value_by_number(symbols, mention.name).unwrap_or(0);
    put_symbol(text, mention.name, value)?;
    text.extend_from_slice(b"  ")?;
    put_spot(text, several, mention.spot)?;
    Ok(())
}

/// Puts a line, after the number of its source where there are several.
fn put_spot(text: &mut Vec<u8>, several: bool, spot: Spot) -> Result<(), AllocError>
    ensures { OnOk result (text.new.items ≡ text.old.items ++ spot_text several spot) }
{
    if several {
        put_number(text, spot.source as u64)?;
        text.extend_from_slice(b":")?;
    }
    put_number(text, spot.line as u64)?;
    Ok(())
}
