//! The sections of a plan: the tables of its root that name resources, one for each kind.
ghost use Rattle.std.specs.Prelude.{◌≡◌, map};
ghost use Rattle.cqs_plan_reader.specs.Sections.{kind_of};

/// The table of the resources of one kind.
#[derive(Clone, Copy)]
pub enum Section {
    Semaphore,
    Mutex,
    Pool,
    Latch,
    Barrier,
}

impl Section {
    /// Its key in the root.
    pub fn key(self) -> &'static str
        ensures { result.now ≡ (kind_of self).key }
    {
        match self {
            Section::Semaphore => "semaphore",
            Section::Mutex => "mutex",
            Section::Pool => "pool",
            Section::Latch => "latch",
            Section::Barrier => "barrier",
        }
    }

    /// The keys that the table of one of its resources has.
    pub fn keys(self) -> &'static [&'static str]
        ensures { map (λ key. key.now) result.now
            ≡ map (λ number. number.key) (kind_of self).numbers }
    {
        match self {
            Section::Semaphore | Section::Pool => &["size"],
            Section::Mutex => &[],
            Section::Latch => &["count"],
            Section::Barrier => &["parties", "rounds"],
        }
    }
}
