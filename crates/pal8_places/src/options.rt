/// How a source is read otherwise, by the switches of PAL8. Without any it is read as this project's profile says.
#[derive(Clone, Copy, PartialEq, Eq, Debug)]
pub struct Options {
    /// A memory reference to an address on neither page is refused, and makes no link (`/E`).
    pub is_without_links: bool,
    /// A text of an even number of characters has no word 00 after it (`/F`).
    pub is_without_zero: bool,
    /// `FIELD` leaves the location as it is (`/O`).
    pub is_without_origin: bool,
    /// Equal values of one page have one cell only where they are asked in one stay on it (`/W`).
    pub has_stays: bool,
}
