ghost use Rattle.std.specs.Prelude.{IsTrue, is_ok};
ghost use Rattle.quota_map.specs.Asked.{asked_of};
ghost use Rattle.quota_map.specs.AnyFile.{any_seen};

use opened_file::{FileFault, OpenFault, QuotaFile};
use outside::Store;
use quota_map::{AnyFile, open_file};
use quota_types::{Format, Kind, Rec};
use std::alloc::Global;

/// A quota file that is told of under a path, for users, groups or projects.
#[derive(Drop)]
pub(crate) struct Export {
    path: String,
    kind: Kind,
    file: AnyFile,
    ghost usable: { IsTrue (any_seen file).usable },
}

impl Export {
    ghost use Rattle.std.specs.Prelude.{◌≡◌, ◌+◌, ◌≤◌, [], Option, None, Some, Ok, IfOk, IfErr, OnOk};
    ghost use Rattle.std.specs.FinMap.{get};
    ghost use Rattle.std.specs.String.{string_bytes};
    ghost use Rattle.quota_types.specs.declared.file_kind.Format.{Format};
    ghost use Rattle.outside.specs.Frame.{OnlyReads};
    ghost use Rattle.opened_file.specs.LooksUp.{LooksUp};
    ghost use Rattle.quota_value.specs.QuotaValue.{QuotaValue};
    ghost use Rattle.quota_map.specs.AnyFile.{HoldsAny, any_at, any_get_reads, any_laws};
    ghost use Rattle.quota_map.specs.View.{IsOpenFault, IsOpenedAs, IsView, opening_reads};
    ghost use Rattle.file_blocks.specs.Block.{file_of};
    ghost use Rattle.rquota_serve.specs.Exports.{export_seen, fresh_export};
    ghost use Rattle.rquota_serve.specs.ExportSeen.{is_named};
    ghost use Rattle.rquota_serve.specs.Reply.{record_of};

    /// Opens a file that is to be told of under this path.
    ///
    /// # Errors
    ///
    /// It is refused as `open_file` refuses it, or there is not enough memory.
    pub(crate) fn open<S: Store>(
        alloc: Global,
        store: &mut S,
        path: &str,
        kind: Kind,
        file: &str,
        format: Option<Format>,
    ) -> Result<Self, OpenFault>
        ensures seen { IfOk result (λ export. (opened : Format) × IsOpenedAs (asked_of format) opened
            × (export_seen export ≡ fresh_export path.now kind file.now opened)) }
        ensures viewed { OnOk result (IsTrue S.tells → (value : QuotaValue)
            × IsView ((S.seen store.old).files file.now) kind (asked_of format) (Ok value)) }
        ensures held { IfOk result (λ export. IsTrue S.tells → (value : QuotaValue)
            → IsView ((S.seen store.old).files file.now) kind (asked_of format) (Ok value)
            → HoldsAny S.tells (S.seen store.new).files export.file value) }
        ensures refused { IfErr result (IsOpenFault (S.seen store.old).faults (S.seen store.new).faults S.tells
            ((S.seen store.old).files file.now) kind (asked_of format)) }
        ensures leaves { OnlyReads (is_ok result) file.now (S.seen store.old) (S.seen store.new) }
        ensures reads { IsTrue S.tells → (S.seen store.new).reads
            ≤ (S.seen store.old).reads + opening_reads (asked_of format) (file_of (S.seen store.old).files file.now) }
        ensures commits { S.commits [] store.old store.new }
    {
        let Ok(path) = String::from_str(alloc, path) else {
            return Err(OpenFault::Memory);
        };
        let file = open_file(alloc, store, file, kind, format)?;
        Ok(Export { path, kind, file })
    }

    /// Whether it is told of under this path, for this kind.
    pub(crate) fn is_named(&self, path: &[u8], kind: Kind) -> bool
        ensures { result ≡ is_named path.now kind (export_seen self.now) }
    {
        self.path.as_bytes() == path && self.kind.number() == kind.number()
    }

    /// The record of an identifier, which is one of zeros where it has none.
    ///
    /// # Errors
    ///
    /// The store failed, or the file is damaged.
    pub(crate) fn record_of<S: Store>(&mut self, store: &mut S, id: u32) -> Result<Rec, FileFault>
        ensures found { IfOk result
            (λ rec. (value : QuotaValue) → HoldsAny S.tells (S.seen store.old).files self.old.file value
            → rec ≡ record_of id value) }
        ensures looks { LooksUp Some (any_laws S.tells) (any_at S.tells (S.seen store.old) self.old.file)
            (any_at S.tells (S.seen store.new) self.new.file) any_get_reads result }
        ensures path { string_bytes self.new.path ≡ string_bytes self.old.path }
        ensures kind { self.new.kind ≡ self.old.kind }
        ensures commits { S.commits [] store.old store.new }
    {
        let found = self.file.get(store, id)?;
        Ok(found.unwrap_or_default())
    }
}
