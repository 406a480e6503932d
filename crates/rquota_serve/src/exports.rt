use crate::export::Export;
use crate::new_export::one_later;
use crate::{AddFault, NewExport};
use opened_file::{FileFault, OpenFault};
use outside::Store;
use quota_types::{Format, Kind, Rec};
use std::alloc::Global;

/// How many quota files may be exported at most.
pub const MOST_EXPORTS: usize = 16;

/// Quota files that are told of under paths, for users, groups or projects. Each stays open.
#[derive(Drop)]
pub struct Exports {
    list: Vec<Export>,
}

impl Exports {
    ghost use Rattle.std.specs.Prelude.{Bool, ◌≡◌, ◌+◌, ◌<◌, ◌≤◌, ◌∷◌, ◌++◌, [], Ok, Option, None, Some, IsTrue, IfOk};
    ghost use Rattle.std.specs.Prelude.{IfErr, IfSome, OnErr, OnOk, is_some, position, slice_get, is_ok, length};
    ghost use Rattle.quota_types.specs.declared.file_kind.Format.{Format};
    ghost use Rattle.outside.specs.Frame.{OnlyReads};
    ghost use Rattle.quota_value.specs.QuotaValue.{QuotaValue};
    ghost use Rattle.outside.specs.World.{World};
    ghost use Rattle.quota_map.specs.Asked.{asked_of};
    ghost use Rattle.quota_map.specs.AnyFile.{any_get_reads};
    ghost use Rattle.quota_map.specs.View.{IsOpenFault, IsOpenedAs, IsView, opening_reads};
    ghost use Rattle.file_blocks.specs.Block.{file_of};
    ghost use Rattle.rquota_serve.specs.Adding.{AreToldOf, MayAddAll, reads_of};
    ghost use Rattle.rquota_serve.specs.Added.{AreAdded, IsRefusedAt, ReadsEach, added_of, news_seen, tried_of};
    ghost use Rattle.rquota_serve.specs.ExportedValues.{ExportedValues, nothing_exported, with_export};
    ghost use Rattle.rquota_serve.specs.Exports.{Serves, export_seen, exports_seen, fresh_export, kept_in};
    ghost use Rattle.rquota_serve.specs.ExportSeen.{ExportSeen, is_exported, is_named, may_add};
    ghost use Rattle.rquota_serve.specs.Looking.{LooksUpIn, exports_at};
    ghost use Rattle.rquota_serve.specs.Reply.{record_under};

    /// No exports.
    pub fn new(alloc: Global) -> Self
        ensures empty { kept_in result ≡ [] }
        ensures serves { (tells : Bool) (files : World) → Serves tells files result nothing_exported }
    {
        Exports {
            list: Vec::new(alloc),
        }
    }

    /// Whether one more file may be exported under this path, for this kind: there are fewer than 16, and none of this
    /// path and kind.
    pub fn may_add(&self, path: &str, kind: Kind) -> bool
        ensures { result ≡ may_add (exports_seen self.now) path.now kind }
    {
        self.list.len() < MOST_EXPORTS && self.place_of(path.as_bytes(), kind).is_none()
    }

    /// Exports the quota file `file` under a path, as `open_file` opens it, which is done once. It stays open.
    ///
    /// # Errors
    ///
    /// It is refused as `open_file` refuses it, or there is not enough memory. The exports are as before.
    pub fn add<S: Store>(
        &mut self,
        alloc: Global,
        store: &mut S,
        path: &str,
        kind: Kind,
        file: &str,
        format: Option<Format>,
    ) -> Result<(), OpenFault>
        requires { IsTrue (may_add (exports_seen self.old) path.now kind) }
        ensures added { OnOk result ((opened : Format) × IsOpenedAs (asked_of format) opened
            × (exports_seen self.new ≡ exports_seen self.old ++ fresh_export path.now kind file.now opened ∷ [])) }
        ensures seen { OnOk result (IsTrue S.tells → (value : QuotaValue)
            × IsView ((S.seen store.old).files file.now) kind (asked_of format) (Ok value)) }
        ensures serves { OnOk result (IsTrue S.tells → (exported : ExportedValues) (value : QuotaValue)
            → Serves S.tells (S.seen store.old).files self.old exported
            → IsView ((S.seen store.old).files file.now) kind (asked_of format) (Ok value)
            → Serves S.tells (S.seen store.new).files self.new (with_export exported path.now kind value)) }
        ensures refused { IfErr result (IsOpenFault (S.seen store.old).faults (S.seen store.new).faults S.tells
            ((S.seen store.old).files file.now) kind (asked_of format)) }
        ensures unchanged { OnErr result (kept_in self.new ≡ kept_in self.old) }
        ensures leaves { OnlyReads (is_ok result) file.now (S.seen store.old) (S.seen store.new) }
        ensures reads { IsTrue S.tells → (S.seen store.new).reads
            ≤ (S.seen store.old).reads + opening_reads (asked_of format) (file_of (S.seen store.old).files file.now) }
        // Nothing is committed.
        ensures commits { S.commits [] store.old store.new }
    {
        let export = Export::open(alloc, store, path, kind, file, format)?;
        if self.list.push(export).is_err() {
            return Err(OpenFault::Memory);
        }
        Ok(())
    }

    /// Exports quota files in their order, behind those that are exported already, each as `add` does.
    ///
    /// # Errors
    ///
    /// The first file that is refused, by its place and with its refusal. Those before it are exported, and those
    /// behind it were not tried.
    pub fn add_all<S: Store>(
        &mut self,
        alloc: Global,
        store: &mut S,
        list: &[NewExport<'_>],
        format: Option<Format>,
    ) -> Result<(), AddFault>
        requires { MayAddAll (exports_seen self.old) (news_seen list.now) }
        ensures added { AreAdded (asked_of format) (added_of (news_seen list.now) result) (exports_seen self.old)
            (exports_seen self.new) }
        ensures serves { IsTrue S.tells → (before : ExportedValues)
            → Serves S.tells (S.seen store.old).files self.old before
            → (exported : ExportedValues)
            × AreToldOf (asked_of format) (S.seen store.old).files (added_of (news_seen list.now) result)
            before exported
            × Serves S.tells (S.seen store.new).files self.new exported }
        ensures leaves { OnOk result (ReadsEach (news_seen list.now) (S.seen store.old) (S.seen store.new)) }
        ensures reads { IsTrue S.tells → (S.seen store.new).reads ≤ (S.seen store.old).reads
            + reads_of (asked_of format) (S.seen store.old).files (tried_of (news_seen list.now) result) }
        ensures refused { IfErr result (λ met. IsRefusedAt S.tells (asked_of format) met.place (news_seen list.now)
            met.fault (S.seen store.old) (S.seen store.new)) }
        ensures within { IfErr result (λ met. met.place < length list.now) }
        // Nothing is committed.
        ensures commits { S.commits [] store.old store.new }
    {
        let Some((first, behind)) = list.split_first() else {
            return Ok(());
        };
        match self.add(alloc, store, first.path, first.kind, first.file, format) {
            Ok(()) => one_later(self.add_all(alloc, store, behind, format)),
            Err(fault) => Err(AddFault { place: 0, fault }),
        }
    }

    /// The place of the export of this path and kind, where there is one.
    fn place_of(&self, path: &[u8], kind: Kind) -> Option<usize>
        ensures found { IfSome result (λ place. (export : ExportSeen)
            × (slice_get (exports_seen self.now) place ≡ Some export) × IsTrue (is_named path.now kind export)) }
        ensures exported { is_some result ≡ is_exported (exports_seen self.now) path.now kind }
    {
        self.first_named(path, kind)
    }

    /// The same, as a search of the list.
    fn first_named(&self, path: &[u8], kind: Kind) -> Option<usize>
        ensures { result ≡ position (λ export. is_named path.now kind (export_seen export)) (kept_in self.now) }
    {
        self.list
            .iter()
            .position(|export| export.is_named(path, kind))
    }

    /// The record of an identifier under a path, which is one of zeros where the file has none; `None` where nothing is
    /// exported under the path for the kind.
    ///
    /// # Errors
    ///
    /// The store failed, or the file is damaged.
    pub(crate) fn look_up<S: Store>(
        &mut self,
        store: &mut S,
        path: &[u8],
        kind: Kind,
        id: u32,
    ) -> Result<Option<Rec>, FileFault>
        ensures found { IfOk result
            (λ found. (exported : ExportedValues) → Serves S.tells (S.seen store.old).files self.old exported
            → found ≡ record_under exported path.now kind id) }
        ensures told { IfOk result (λ found. is_some found ≡ is_exported (exports_seen self.old) path.now kind) }
        ensures there { OnErr result (IsTrue (is_exported (exports_seen self.old) path.now kind)) }
        ensures looks { LooksUpIn Some (exports_at S.tells (S.seen store.old) self.old)
            (exports_at S.tells (S.seen store.new) self.new) any_get_reads result }
        ensures untouched { IfOk result (λ found. found ≡ None → S.seen store.new ≡ S.seen store.old) }
        ensures commits { S.commits [] store.old store.new }
    {
        let Some(place) = self.place_of(path, kind) else {
            return Ok(None);
        };
        let rec = self.list[place].record_of(store, id)?;
        Ok(Some(rec))
    }
}
