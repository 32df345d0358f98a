ghost use Rattle.std.specs.Prelude.{◌≡◌, ◌≤◌, ◌<◌, ◌^◌, ◌∷◌, [], List, Option, Some, OnErr, IfOk, IfErr, IfNone, IfSome, drop, length};
ghost use Rattle.fs_trait.specs.View.{View};
ghost use Rattle.fs_trait.specs.Effect.{HasCause, IsQuiet, OfNone};
ghost use Rattle.repo_layout.specs.Fixed.{entries_path, number};
ghost use Rattle.boot_model.specs.Items.{AreItems};
ghost use Rattle.ost_types.specs.Path.{under};
ghost use Rattle.boot_model.specs.declared.item.BootItem.{BootItem as Item};
ghost use Rattle.boot_compare.specs.declared.comparing.Compared.TheVariants as compared;
ghost use Rattle.boot_compare.specs.Comparing.{Compares, IsSeen, IsTakenFrom, Tells, ended, passed};

use crate::reads::read_file;
use crate::texts::{all_texts, take_text};
use boot_model::BootItem;
use boot_read::{is_entry_name, list_names};
use fs_trait::{Fs, FsErr};
use ost_types::{Bytes, FsPath, Name, NoMemory};
use repo_layout::{Fixed, Version, fixed_path};
use std::alloc::Global;
use std::marker::Model;

/// What a step of a comparison came to.
#[derive(Clone, Copy, Debug, PartialEq, Eq)]
pub enum Compared {
    /// There is more to compare.
    More,
    /// The entries are those of the list.
    Same,
    /// They aren't.
    Other,
}

/// The entries of a version, compared with those of a list: the names that weren't looked at yet, and the texts that no entry had yet.
#[derive(Drop, Debug)]
pub struct Comparing {
    alloc: Global,
    // the next one last
    names: Vec<Name>,
    texts: Vec<Bytes>,
}

impl Model for Comparing {
    ghost use Rattle.std.specs.Prelude.{reverse};
    ghost use Rattle.boot_compare.specs.Comparing.{Comparison};

    ghost Value = { Comparison };

    ghost view = { λ a. record { names = reverse a.names.items; texts = a.texts.items } };
}

impl Comparing {
    /// Lists the entries of a version, to compare them with those of a list: one reading call.
    pub fn begin<F: Fs>(
        alloc: Global,
        fs: &mut F,
        loader: Version,
        items: &[BootItem],
    ) -> Result<Comparing, FsErr>
        requires { AreItems items.now }
        ensures told { (v : View) → F.view fs.old ≡ Some v → IfOk result (Compares v.now (number loader) items.now) }
        ensures named { IfErr result OfNone }
        ensures quiet { IsQuiet (F.clock fs.old) (F.clock fs.new) (F.was fs.old) (F.was fs.new) (F.view fs.old) (F.view fs.new) }
        ensures keeps_room { F.spare fs.old ≤ F.spare fs.new }
        ensures cause { HasCause (F.faults fs.old) (F.faults fs.new) result }
    {
        let at = fixed_path(alloc, Fixed::Entries(loader))?;
        let texts = all_texts(alloc, loader, items)?;
        let names = list_names(fs, alloc, &at)?;
        Ok(Comparing {
            alloc,
            names: names.into_vec(),
            texts,
        })
    }

    /// How many names are left.
    pub fn left(&self) -> u128
        ensures value { result ≡ length self.now.names }
        ensures small { result < 2 ^ 64 }
    {
        self.names.len() as u128
    }

    /// Does the next step: at most one reading call. After an error the comparison is unchanged.
    pub fn step<F: Fs>(&mut self, fs: &mut F, loader: Version) -> Result<Compared, FsErr>
        ensures told { (v : View) → F.view fs.old ≡ Some v → (items : List Item) → Compares v.now (number loader) items self.old → IfOk result (λ r. Tells v.now (number loader) items r self.new) }
        ensures falls { IfOk result (λ r. r ≡ compared.More → length self.new.names < length self.old.names) }
        ensures err { OnErr result (self.new ≡ self.old) }
        ensures named { IfErr result OfNone }
        ensures quiet { IsQuiet (F.clock fs.old) (F.clock fs.new) (F.was fs.old) (F.was fs.new) (F.view fs.old) (F.view fs.new) }
        ensures keeps_room { F.spare fs.old ≤ F.spare fs.new }
        ensures cause { HasCause (F.faults fs.old) (F.faults fs.new) result }
    {
        let name = match self.next() {
            None => return Ok(self.ended()),
            Some(name) => name,
        };
        if is_entry_name(name) {
            let at = entry_at(self.alloc, loader, name)?;
            let found = read_file(fs, &at)?;
            return Ok(self.see(found));
        }
        self.pass();
        Ok(Compared::More)
    }

    // this is what stands at the next name
    fn see(&mut self, found: Option<Bytes>) -> Compared
        ensures { IsSeen self.old found result self.new }
    {
        match found {
            None => {
                self.pass();
                Compared::More
            }
            Some(bytes) => self.take(bytes.as_slice()),
        }
    }

    // the next name
    fn next(&self) -> Option<&Name>
        ensures none { IfNone result (self.now.names ≡ []) }
        ensures some { IfSome result (λ name. self.now.names ≡ name.now ∷ drop 1 self.now.names) }
    {
        self.names.last()
    }

    // the next name was looked at
    fn pass(&mut self)
        ensures { self.new ≡ passed self.old }
    {
        self.names.pop();
    }

    // no name is left
    fn ended(&self) -> Compared
        ensures { result ≡ ended self.now.texts }
    {
        if self.texts.is_empty() {
            Compared::Same
        } else {
            Compared::Other
        }
    }

    // the next name is an entry with this text
    fn take(&mut self, text: &[u8]) -> Compared
        ensures { IsTakenFrom self.old text.now result self.new }
    {
        if !take_text(&mut self.texts, text) {
            return Compared::Other;
        }
        self.pass();
        Compared::More
    }
}

fn entry_at(alloc: Global, loader: Version, name: &Name) -> Result<FsPath, NoMemory>
    ensures { IfOk result (λ p. p ≡ under (entries_path (number loader)) name.now) }
{
    let _name = name.as_slice();
    fixed_path(alloc, Fixed::Entries(loader))?.child(name)
}
