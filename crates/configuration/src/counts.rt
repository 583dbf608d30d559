// How many facets and fields there are.
ghost use Rattle.std.specs.Prelude.{◌<◌, ◌+◌, ◌^◌};

/// How many facets and fields are declared.
#[derive(Clone, Copy)]
pub struct Counts {
    pub facets: u32,
    pub fields: u32,
    ghost fits: { facets + fields < 2 ^ 32 },
}
