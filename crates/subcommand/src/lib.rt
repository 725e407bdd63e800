// What the program `coentrift` does: what its arguments ask for, and what it prints for them and for the files that
// they name.
#![tactic(auto)]

pub mod answers;
pub mod message;
mod page;

ghost use Rattle.std.specs.Prelude.{◌≡◌, map};
ghost use Rattle.std.specs.Option.{option_copied, option_map};
ghost use Rattle.subcommand.specs.Arguments.{all_digits, column_by, sought_by, asked, asked_by, by_name, page_by};
ghost use Rattle.subcommand.specs.Arguments.{single, table_of};

// The most bytes of an argument.
pub const ARGUMENT_LIMIT: usize = 4095;

// The column that is sought, by its index or by its name.
#[derive(Clone, Copy)]
pub enum SoughtColumn<'a> {
    Index(usize),
    Name(&'a [u8]),
}

// What is asked for, with the name of the table's file.
#[derive(Clone, Copy)]
pub enum Subcommand<'a> {
    Turn(&'a [u8]),
    TurnBack(&'a [u8]),
    Page {
        table: &'a [u8],
        column: SoughtColumn<'a>,
        row: usize,
        edition: u64,
    },
}

impl<'a> Subcommand<'a> {
    // The name of the table's file.
    pub fn table(&self) -> &'a [u8]
        ensures { result.now ≡ table_of self.now }
    {
        match *self {
            Subcommand::Turn(table)
            | Subcommand::TurnBack(table)
            | Subcommand::Page { table, .. } => table,
        }
    }
}

// The single argument.
fn single<'a>(args: &[&'a [u8]]) -> Option<&'a [u8]>
    ensures { option_copied result ≡ single (map (λ a. a.now) args.now) }
{
    match args {
        [table] => Some(table),
        _ => None,
    }
}

// Whether an argument is digits only, and one at least.
fn all_digits(text: &[u8]) -> bool
    ensures { result ≡ all_digits text.now }
{
    !text.is_empty() && ascii::leading_digits(text) == text.len()
}

// The column that an argument says; none where it is an index of 2^64 or more.
#[tactic(auto, unfolding(crate::specs::Arguments::column_by))]
fn sought_column(text: &[u8]) -> Option<SoughtColumn>
    ensures { option_map sought_by result ≡ column_by text.now }
{
    if all_digits(text) {
        return Some(SoughtColumn::Index(ascii::digits::parse_number(text)?));
    }
    Some(SoughtColumn::Name(text))
}

// What the arguments of `page` ask for.
#[tactic(auto, unfolding(crate::specs::Arguments::page_by))]
fn parse_page<'a>(args: &[&'a [u8]]) -> Option<Subcommand<'a>>
    ensures { asked_by result ≡ page_by (map (λ a. a.now) args.now) }
{
    let [table, column, row, edition] = args else {
        return None;
    };
    Some(Subcommand::Page {
        table,
        column: sought_column(column)?,
        row: ascii::digits::parse_number(row)?,
        edition: ascii::digits::parse_number(edition)? as u64,
    })
}

// What the arguments after the subcommand's name ask for.
#[tactic(auto, using(ascii::proofs::Library::same_pointwise), unfolding(ascii::specs::Text::bytes, crate::specs::Arguments::by_name))]
fn by_name<'a>(name: &[u8], args: &[&'a [u8]]) -> Option<Subcommand<'a>>
    ensures { asked_by result ≡ by_name name.now (map (λ a. a.now) args.now) }
{
    if ascii::same_bytes(name, b"turn") {
        return Some(Subcommand::Turn(single(args)?));
    }
    if ascii::same_bytes(name, b"turn-back") {
        return Some(Subcommand::TurnBack(single(args)?));
    }
    if ascii::same_bytes(name, b"page") {
        return parse_page(args);
    }
    None
}

// What the arguments ask for; none where they are wrong.
#[tactic(auto, unfolding(crate::specs::Arguments::asked))]
pub fn parse<'a>(args: &[&'a [u8]]) -> Option<Subcommand<'a>>
    ensures { asked_by result ≡ asked (map (λ a. a.now) args.now) }
{
    if args.iter().any(|arg| arg.len() > ARGUMENT_LIMIT) {
        return None;
    }
    let (name, rest) = args.split_first()?;
    by_name(name, rest)
}
