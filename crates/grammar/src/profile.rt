// Whose SQL is lexed: Turso's, which is document 01's, or request 7's, which is nearer SQLite's.
#[derive(Clone, Copy)]
pub enum Profile {
    Turso,
    Sqlite,
}
