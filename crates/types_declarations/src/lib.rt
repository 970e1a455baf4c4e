//! What is found at each node of a declaration (C17 6.7, 6.9), from what is found of its parts.
#![tactic(auto)]

mod declarators;
mod definitions;
mod earlier;
mod enumerations;
mod external;
mod faults;
mod functions;
mod laws;
mod lengths;
mod locals;
mod members;
mod objects;
mod parameters;
mod signatures;
mod specifier_types;
mod statics;
mod storage;
mod structures;
mod tags;
mod typedefs;
mod units;
mod values;

pub use declarators::declared_type;
pub use definitions::{Body, Heading, begin_definition, end_definition, heading_of, names_fault};
pub use earlier::Earlier;
pub use enumerations::{enter_enumeration, enumeration, enumerator, valued_enumerator};
pub use faults::first_fault;
pub use functions::begin_function;
pub use laws::{declarations_come_in_halves, lists_begin_on_the_left, parameters_leave_nothing};
pub use lengths::{more_lengths, no_lengths};
pub use locals::{Local, begin_local, end_local};
pub use members::{function_member, member as structure_member};
pub use objects::type_to_fit;
pub use parameters::{Parameters, join_parameters, name_start, no_parameters, parameter};
pub use signatures::result_of;
pub use specifier_types::{has, no_specifier, specifiers, typed_by};
pub use statics::{Stored, begin_static, end_static};
pub use storage::{
    Storage, count_listed, declaration, empty_fault, is_tag_alone, no_initializer,
    optional_initializer, storage_of,
};
pub use structures::{Opened, close_structure, open_structure};
pub use tags::{enumeration_tag, plain, structure_tag};
pub use typedefs::{begin_typedef, end_declared, typedef_name};
pub use units::{
    bodies_of, declared_item, declared_name, more_functions, no_functions, wrong_definition,
};
