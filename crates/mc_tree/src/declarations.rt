//! Declarations and what they are made of (C17 6.7).
pub mod array_length;
pub mod declaration;
pub mod declarator;
pub mod enumerator;
pub mod init_declarator;
pub mod initializer;
pub mod member;
pub mod parameter;
pub mod specifier;
pub mod specifier_word;
