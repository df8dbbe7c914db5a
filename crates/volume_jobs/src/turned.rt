use os8_dir::Name;

/// What a turn of a job is answered, where it isn't refused.
#[derive(Clone, Copy)]
pub enum Turned {
    /// The job has turns left.
    Working,

    /// Sources were assembled to the file of this name, which has so many blocks: the job is at its end.
    Assembled { name: Name, blocks: usize },

    /// The file of this name was laid over core: the job is at its end.
    Loaded(Name),

    /// The files were moved down: the job is at its end.
    Squeezed,
}
