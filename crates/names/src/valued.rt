/// What has a value, by its id.
#[derive(Clone, Copy, Debug, Drop)]
pub enum Valued {
    Facet(u32),
    Field(u32),
}
