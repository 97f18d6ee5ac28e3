//! The fields of requests.
ghost use Rattle.std.specs.Prelude.{◌≡◌};
ghost use Rattle.office_http_requests.specs.Fields.{field_name};

/// A field of a path or a key of a body.
#[derive(Clone, Copy)]
pub enum Field {
    Clerk,
    Count,
    Csv,
    Day,
    Id,
    Interval,
    Line,
    Name,
    Number,
    Order,
    Part,
    Rows,
    Text,
}

impl Field {
    /// The name of the field, as paths and bodies spell it.
    pub fn name(self) -> &'static str
        ensures { result.now ≡ field_name self }
    {
        match self {
            Field::Clerk => "clerk",
            Field::Count => "count",
            Field::Csv => "csv",
            Field::Day => "day",
            Field::Id => "id",
            Field::Interval => "interval",
            Field::Line => "line",
            Field::Name => "name",
            Field::Number => "number",
            Field::Order => "order",
            Field::Part => "part",
            Field::Rows => "rows",
            Field::Text => "text",
        }
    }
}
