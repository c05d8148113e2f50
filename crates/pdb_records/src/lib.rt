//! CodeView records of types and ids, by their leaves (`LF_*`). The layouts are those of
//! microsoft-pdb's cvinfo.h and of LLVM's CodeView Type Records, as the pdb crate reads them.
//!
//! A record of another leaf may be added. What a record says (`specs/TypeRecords`,
//! `specs/IdRecords`) may not change.
#![tactic(auto)]

mod id_data;
mod leaves;
mod parse_id;
mod parse_list;
mod parse_member;
mod parse_record;
mod parse_type;
mod primitive;
mod type_attributes;
mod type_data;

pub use id_data::{
    BuildInfoId, FunctionId, IdData, MemberFunctionId, StringId, StringListId,
    UserDefinedTypeSourceFileRef, UserDefinedTypeSourceId,
};
pub use parse_id::parse_id_data;
pub use parse_record::parse_type_data;
pub use primitive::{Indirection, PrimitiveKind, PrimitiveType, type_data_for_primitive};
pub use type_attributes::{
    FieldAttributes, FunctionAttributes, PointerAttributes, PointerKind, PointerMode,
    TypeProperties,
};
pub use type_data::{
    ArgumentList, ArrayType, BaseClassType, BitfieldType, ClassKind, ClassType, EnumerateType,
    EnumerationType, FieldList, MemberFunctionType, MemberType, MethodList, MethodListEntry,
    MethodType, ModifierType, NestedType, OverloadedMethodType, PointerType, ProcedureType,
    StaticMemberType, TypeData, UnionType, VirtualBaseClassType, VirtualFunctionTablePointerType,
};
