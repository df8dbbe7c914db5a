/// Which files an index has, and which years their dates mean.
#[derive(Drop)]
pub struct IndexStyle {
    /// The word that chooses them, as `name_spelling::is_choice` takes it: a name, or a pattern; `*.*` chooses all.
    pub find: String,

    /// The text that they hold, if one is wanted: they are texts then.
    pub grep: Option<String>,

    /// The last of the eight years that their dates mean, 1977 to 9999; else the one that their volume gives.
    pub year: Option<usize>,
}
