// The most rules of a book.
pub const MAX_RULES: usize = 128;

// The most pages of a book.
pub const MAX_PAGES: usize = 64;
