//! How a volume of a disk is named: the name of its file, a colon, and its number.
ghost use Rattle.std.specs.Prelude.{◌≡◌, ◌-◌, if◌then◌else◌, length, nat_eq, option_map, take, None, Some};
ghost use Rattle.std.specs.List.{ends_with};
ghost use Rattle.program_tasks.specs.Names as spec;

use disk_layouts::Layout;

/// The file that a name means, and where its volume lies. Where this is not given, a name that ends in `:1` or `:2`, with a character before, means
/// that volume of the disk whose file stands before the colon.
pub fn volume_named(given: Option<Layout>, name: &str) -> (&str, Option<Layout>)
    ensures { (result.0.now, result.1) ≡ spec.volume_named given name.now }
{
    match given {
        Some(layout) => (name, Some(layout)),
        None => volume_at_end(name),
    }
}

/// The file and the volume that a name means by its end.
fn volume_at_end(name: &str) -> (&str, Option<Layout>)
    ensures { (result.0.now, result.1) ≡ spec.before_end name.now (spec.end_volume name.now) }
{
    if name.len() < 3 {
        return (name, None);
    }
    if let Some(file) = before(name, ":1") {
        return (file, Some(Layout::First));
    }
    if let Some(file) = before(name, ":2") {
        return (file, Some(Layout::Second));
    }
    (name, None)
}

/// What stands before this end of a name, if it has it.
fn before<'a>(name: &'a str, end: &str) -> Option<&'a str>
    ensures { option_map (λ text. text.now) result
        ≡ (if ends_with nat_eq name.now end.now then Some (take (length name.now - length end.now) name.now) else None) }
{
    name.strip_suffix(end)
}
