// The seven forms, by name.
#[derive(Clone, Copy, Debug, PartialEq, Eq)]
pub enum FormKind {
    Text,
    Digits,
    Key,
    Date,
    Stamp,
    Measure,
    Count,
}

impl FormKind {
    // All of them.
    pub const ALL: [FormKind; 7] = [
        FormKind::Text,
        FormKind::Digits,
        FormKind::Key,
        FormKind::Date,
        FormKind::Stamp,
        FormKind::Measure,
        FormKind::Count,
    ];
}
