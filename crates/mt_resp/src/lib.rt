//! The grammar of a second protocol: commands as lists of words, what they ask, and what they are told.
//!
//! `specs/Grammar.antt` spells a command, `specs/Commands.antt` says what is read, `specs/Asking.antt` what words ask, and
//! `specs/Replies.antt` how a reply is spelled.
#![tactic(auto)]

pub mod arguments;
pub mod asked;
pub mod edits;
pub mod laws;
pub mod lists;
pub mod making;
pub mod names;
pub mod on_fields;
pub mod on_keys;
pub mod on_links;
pub mod on_numbers;
pub mod on_scans;
pub mod on_strings;
pub mod patterns;
pub mod signed;
pub mod stop;
pub mod strings;
pub mod told;
pub mod word;
pub mod words;
pub mod writing;

pub use arguments::Amount;
pub use asked::{Asked, Edit, RangeWay, Status, When, meaning_of};
pub use edits::{Edited, after_edit};
pub use making::CommandList;
pub use patterns::is_like;
pub use signed::signed_in;
pub use stop::Fault;
pub use strings::{STRING_BYTES, columns_of, value_len, write_value};
pub use told::{Failure, Kind, Shape, Told, picked};
pub use word::{Word, Words};
pub use words::{COMMAND_BYTES, COMMAND_WORDS, Front, decode};
pub use writing::{write_number, write_told};
