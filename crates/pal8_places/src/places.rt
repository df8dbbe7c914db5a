ghost use Rattle.std.specs.Prelude.{◌≡◌, ◌<◌, IfOk, true};
ghost use Rattle.pal8_lex.specs.declared.judging.Radix.TheVariants.{Octal};
ghost use Rattle.pal8_places.specs.Places.{at_location, kept_low, location_at, location_in_field, next_page, next_stay, stay_if, with_relocation, place_of_location, spot_at, to_page, to_place, with_field, with_page, with_size};
ghost use Rattle.pal8_places.specs.Steps.{Moves};
ghost use Rattle.pal8_places.specs.declared.places.TheConstants.{FIRST_PLACE};

use crate::{Code, Options, Stop};
use pal8_lex::Radix;
use pal8_values::Spot;
use word12::{PAGE, Word};

/// Where the next statement stands, how its numbers are read, and whether its words are punched.
#[derive(Clone, Copy)]
pub struct Position {
    pub radix: Radix,
    /// The address of the next word, below 0o20000. From 0o10000 on it is past 7777.
    pub location: u16,
    /// 0 to 7.
    pub field: u8,
    /// What `RELOC` adds to a location, modulo 0o10000: 0 to 0o7777.
    pub shift: u16,
    pub is_punched: bool,
    /// How the source is read: no statement changes it.
    pub options: Options,
    /// In which stay page zero is asked, and in which the page of the location. They are 0 where no stays count.
    pub zero_stay: u32,
    pub page_stay: u32,
}

/// Where a source begins, and each `FIELD`.
pub const FIRST_PLACE: u16 = 0o200;

/// The last stay that is counted.
const LAST_STAY: u32 = u32::MAX;

/// Where a source begins that is read by these options.
pub fn first_position(options: Options) -> Position
    ensures { result ≡ record { radix = Octal; location = FIRST_PLACE; field = 0; shift = 0; is_punched = true; options = options; zero_stay = 0; page_stay = 0 } }
{
    Position {
        radix: Radix::Octal,
        location: FIRST_PLACE,
        field: 0,
        shift: 0,
        is_punched: true,
        options,
        zero_stay: 0,
        page_stay: 0,
    }
}

/// The place of a location.
fn place_of_location(shift: u16, location: u16) -> u16
    requires location { location < 0o20000 }
    requires shift { shift < 0o10000 }
    ensures value { result ≡ place_of_location shift location }
    ensures range { result < 0o20000 }
{
    if shift == 0 {
        return location;
    }
    (location + shift) % 0o10000
}

/// The location of a place.
fn location_at(shift: u16, place: Word) -> u16
    requires { shift < 0o10000 }
    ensures value { result ≡ location_at shift place }
    ensures range { result < 0o10000 }
{
    (place.get() + 0o10000 - shift) % 0o10000
}

/// Where a statement stands.
pub fn spot_at(position: Position) -> Spot
    requires location { position.location < 0o20000 }
    requires shift { position.shift < 0o10000 }
    ensures { result ≡ spot_at position }
{
    Spot {
        field: position.field,
        location: position.location,
        here: place_of_location(position.shift, position.location),
        is_punched: position.is_punched,
        may_link: !position.options.is_without_links,
        zero_stay: position.zero_stay,
        page_stay: position.page_stay,
    }
}

/// One stay more, where it counts.
fn stay_if(counts: bool, stay: u32) -> u32
    ensures { result ≡ stay_if counts stay }
{
    if counts && stay < LAST_STAY {
        return stay + 1;
    }
    stay
}

/// The position at another location.
pub fn at_location(location: u16, position: Position) -> Position
    ensures { result ≡ at_location location position }
{
    let is_elsewhere = location / PAGE != position.location / PAGE;
    Position {
        location,
        page_stay: stay_if(
            position.options.has_stays && is_elsewhere,
            position.page_stay,
        ),
        ..position
    }
}

/// The position at another place.
pub fn to_place(place: Word, position: Position) -> Position
    requires { position.shift < 0o10000 }
    ensures value { result ≡ to_place place position }
    ensures range { (result.location < 0o20000) × (result.field ≡ position.field) × (result.shift ≡ position.shift) }
{
    at_location(location_at(position.shift, place), position)
}

/// The position after so many words.
pub fn with_size(size: usize, position: Position) -> Result<Position, Stop>
    requires { position.location < 0o20000 }
    ensures moved { Moves (with_size size position) result }
    ensures range { IfOk result (λ p. (p.location < 0o20000) × (p.field ≡ position.field) × (p.shift ≡ position.shift)) }
{
    if size == 0 {
        return Ok(position);
    }
    let room = 0o10000_u16.saturating_sub(position.location);
    if size > usize::from(room) {
        return Err(Stop::At(Code::PF));
    }
    Ok(at_location(position.location + size as u16, position))
}

/// Where a `FIELD` goes on.
fn location_in_field(position: Position) -> u16
    requires { position.location < 0o20000 }
    ensures value { result ≡ location_in_field position }
    ensures range { result < 0o20000 }
{
    if position.options.is_without_origin {
        position.location
    } else {
        FIRST_PLACE
    }
}

/// The position after a `FIELD`.
pub fn with_field(number: Word, position: Position) -> Result<Position, Stop>
    requires { position.location < 0o20000 }
    ensures moved { Moves (with_field number position) result }
    ensures range { IfOk result (λ p. (p.location < 0o20000) × (p.field < 8) × (p.shift ≡ position.shift)) }
{
    let number = number.get();
    if number > 7 {
        return Err(Stop::At(Code::FD));
    }
    let again = position;
    Ok(Position {
        location: location_in_field(position),
        field: number as u8,
        zero_stay: stay_if(position.options.has_stays, position.zero_stay),
        page_stay: stay_if(position.options.has_stays, position.page_stay),
        ..again
    })
}

/// The position at a page's first place.
pub fn with_page(number: Word, position: Position) -> Result<Position, Stop>
    requires { position.shift < 0o10000 }
    ensures moved { Moves (with_page number position) result }
    ensures range { IfOk result (λ p. (p.location < 0o20000) × (p.field ≡ position.field) × (p.shift ≡ position.shift)) }
{
    let number = number.get();
    if number > 0o37 {
        return Err(Stop::At(Code::PG));
    }
    Ok(to_place(Word::low(0o200 * number), position))
}

/// How many places are left to the first one of a page.
fn to_page(place: u16) -> u16
    ensures value { result ≡ to_page place }
    ensures range { result < 0o200 }
{
    (0o200 - place % 0o200) % 0o200
}

/// A location, which counts modulo 0o10000 past 7777.
fn kept_low(location: u16) -> u16
    requires { location < 0o30000 }
    ensures value { result ≡ kept_low location }
    ensures range { result < 0o20000 }
{
    if location < 0o20000 {
        return location;
    }
    location - 0o10000
}

/// The position at the first place of a page that isn't before this one.
pub fn next_page(position: Position) -> Position
    requires location { position.location < 0o20000 }
    requires shift { position.shift < 0o10000 }
    ensures value { result ≡ next_page position }
    ensures range { (result.location < 0o20000) × (result.field ≡ position.field) × (result.shift ≡ position.shift) }
{
    let left = to_page(place_of_location(position.shift, position.location));
    at_location(kept_low(position.location + left), position)
}

/// The position with the shift by which this is its place.
pub fn with_relocation(place: Word, position: Position) -> Position
    requires { position.location < 0o20000 }
    ensures value { result ≡ with_relocation place position }
    ensures range { (result.location ≡ position.location) × (result.field ≡ position.field) × (result.shift < 0o10000) }
{
    Position {
        shift: (place.get() + 0o20000 - position.location) % 0o10000,
        ..position
    }
}
