//! The reply to each error.
ghost use Rattle.std.specs.Prelude.{◌≡◌};
ghost use Rattle.hir_session_replies.specs.Replies.{new_reply, edit_reply, refresh_reply, query_error_reply, trait_items_reply, impl_items_reply, tree_text_reply, diagnostics_error_reply, modules_error_reply, read_reply};

use hir_session_state::error::{
    DiagnosticsError, EditError, ImplItemsError, ModulesError, NewSessionError, QueryError,
    RefreshError, TraitItemsError, TreeTextError,
};
use hir_wire::read_error::ReadError;
use hir_wire::reply::Reply;

pub fn new_error_reply(error: NewSessionError) -> Reply
    ensures value { result ≡ new_reply error }
{
    match error {
        NewSessionError::DependencyOrder(krate) => Reply::DependencyOrder(krate),
        NewSessionError::TooLarge(limit) => Reply::TooLarge(limit),
        NewSessionError::Memory => Reply::Memory,
    }
}

pub fn edit_error_reply(error: EditError) -> Reply
    ensures value { result ≡ edit_reply error }
{
    match error {
        EditError::UnknownCrate => Reply::UnknownCrate,
        EditError::TooLarge(limit) => Reply::TooLarge(limit),
        EditError::DependencyOrder(krate) => Reply::DependencyOrder(krate),
        EditError::DuplicateId { kind, id } => Reply::DuplicateId { kind, id },
        EditError::Memory => Reply::Memory,
    }
}

pub fn refresh_error_reply(error: RefreshError) -> Reply
    ensures value { result ≡ refresh_reply error }
{
    match error {
        RefreshError::TooMany => Reply::TooMany,
        RefreshError::Memory => Reply::Memory,
    }
}

pub fn reply_to_query(error: QueryError) -> Reply
    ensures value { result ≡ query_error_reply error }
{
    match error {
        QueryError::StalePlace => Reply::StalePlace,
        QueryError::UnknownPlace => Reply::UnknownPlace,
        QueryError::Memory => Reply::Memory,
    }
}

pub fn reply_to_trait(error: TraitItemsError) -> Reply
    ensures value { result ≡ trait_items_reply error }
{
    match error {
        TraitItemsError::StalePlace => Reply::StalePlace,
        TraitItemsError::UnknownPlace => Reply::UnknownPlace,
        TraitItemsError::NotATrait => Reply::NotATrait,
        TraitItemsError::TooMany => Reply::TooMany,
        TraitItemsError::Memory => Reply::Memory,
    }
}

pub fn reply_to_impl(error: ImplItemsError) -> Reply
    ensures value { result ≡ impl_items_reply error }
{
    match error {
        ImplItemsError::StalePlace => Reply::StalePlace,
        ImplItemsError::UnknownPlace => Reply::UnknownPlace,
        ImplItemsError::NoSuchImpl => Reply::NoSuchImpl,
        ImplItemsError::TooMany => Reply::TooMany,
        ImplItemsError::Memory => Reply::Memory,
    }
}

pub fn reply_to_tree(error: TreeTextError) -> Reply
    ensures value { result ≡ tree_text_reply error }
{
    match error {
        TreeTextError::UnknownCrate => Reply::UnknownCrate,
        TreeTextError::Memory => Reply::Memory,
    }
}

pub fn reply_to_diagnostics(error: DiagnosticsError) -> Reply
    ensures value { result ≡ diagnostics_error_reply error }
{
    match error {
        DiagnosticsError::UnknownCrate => Reply::UnknownCrate,
        DiagnosticsError::StalePlace => Reply::StalePlace,
        DiagnosticsError::Memory => Reply::Memory,
    }
}

pub fn reply_to_modules(error: ModulesError) -> Reply
    ensures value { result ≡ modules_error_reply error }
{
    match error {
        ModulesError::UnknownCrate => Reply::UnknownCrate,
        ModulesError::StalePlace => Reply::StalePlace,
        ModulesError::Memory => Reply::Memory,
    }
}

pub fn reply_to_line(error: ReadError) -> Reply
    ensures value { result ≡ read_reply error }
{
    match error {
        ReadError::Json => Reply::Json,
        ReadError::Command => Reply::Command,
        ReadError::TooLarge(limit) => Reply::TooLarge(limit),
        ReadError::Memory => Reply::Memory,
    }
}
