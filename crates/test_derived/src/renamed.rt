//! Types whose fields and variants are written by other names.
mod derived;

/// A parcel.
// derive: rename_all = "camelCase"
#[derive(Drop)]
pub struct Parcel {
    pub sent_by: String,
    // derive: rename = "type"
    pub kind: u8,
    pub paid_at: Option<u64>,
}

/// How a parcel goes.
// derive: rename_all = "kebab-case", rename_all_fields = "camelCase"
#[derive(Drop)]
pub enum Way {
    ByAir,
    OverLand { days_left: u8, by: String },
    // derive: rename = "sea"
    AcrossTheSea(u16),
}
