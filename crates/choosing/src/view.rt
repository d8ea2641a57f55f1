use heads::head::Head;
use service::rows::Tables;
use values::instant::Instant;

// The tables at an instant, with the head run that each place of the table of sessions has in the waiting line.
// The head runs stand beside the table, since they follow from the line that the caller lends and are no part of the service.
#[derive(Clone, Copy)]
pub struct View<'a> {
    pub tables: &'a Tables,
    pub heads: &'a [Option<Head>; 64],
    pub present: Instant,
}

// The places of a view whose session is free to go: those that a choice is made among. Answers beside the tables, in fixed memory.
#[derive(Drop)]
pub struct FreePlaces<'a> {
    pub tables: &'a Tables,
    pub free: [bool; 64],
    pub present: Instant,
}
