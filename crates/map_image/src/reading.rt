//! What was read of an image, and where reading goes on.
ghost use Rattle.std.specs.Prelude.{◌≡◌, [], IfOk, OnOk};
ghost use Rattle.map_image.specs.ImageReading.{Tells};
ghost use Rattle.map_image.specs.PartReading.{KeepsLast};
ghost use Rattle.map_image.specs.Feeding.{IsCut, IsCutTo, IsMark, IsSame, KnowsParents, OnlyAdds, Reads, front_at, resumed};
ghost use Rattle.map_image.specs.declared.reading.Reading.{Reading};

use crate::header::{form_at, header_at, magic_at};
use crate::list_reader::{keep_last, more_entries, more_links, more_made};
use crate::usage::{all_of_use, sorted};
use crate::{Entries, Image, ImageFault, ImageHeader, VersionForm};
use byte_codec::u32_at;
use checkout::{Changes, LinkList, Made, MadeList};
use eden_base::FileId;
use entry_table::Kept;
use manifest::LinkChange;
use std::alloc::Global;

/// What stands before the first entry.
#[derive(Clone, Copy)]
pub(crate) struct Front {
    pub(crate) form: VersionForm,
    pub(crate) header: ImageHeader,
    /// How many entries there are.
    pub(crate) count: u32,
}

/// Where reading goes on: before the first entry, or in a list of which `left` members are left.
#[derive(Clone, Copy)]
pub(crate) enum Stage {
    AtFront,
    AtEntries {
        form: VersionForm,
        header: ImageHeader,
        left: u32,
    },
    AtMade {
        header: ImageHeader,
        left: u32,
    },
    AtLinks {
        header: ImageHeader,
        left: u32,
    },
}

/// What was read of an image.
#[derive(Drop)]
pub(crate) struct Reading {
    pub(crate) alloc: Global,
    pub(crate) stage: Stage,
    pub(crate) entries: Vec<Kept>,
    /// The directories in which entries stand.
    pub(crate) parents: Vec<u64>,
    pub(crate) made: Vec<Made>,
    pub(crate) links: Vec<LinkChange>,
}

/// How far reading had come, at a call of `mark`.
#[derive(Clone, Copy)]
pub(crate) struct Mark {
    stage: Stage,
    entries: usize,
    parents: usize,
    made: usize,
    links: usize,
}

/// Reads what stands before the first entry, and returns it and the rest.
#[tactic(auto, unfolding(crate::specs::Feeding::front_at))]
fn front_at(bytes: &[u8]) -> Result<(Front, &[u8]), ImageFault>
    ensures { Tells (λ x. (x.0, x.1.now)) result (front_at bytes.now) }
{
    let rest = magic_at(bytes)?;
    let (form, rest) = form_at(rest)?;
    let (header, rest) = header_at(form.named_by, rest)?;
    let (count, rest) = u32_at(rest, ImageFault::Short)?;
    let front = Front {
        form,
        header,
        count,
    };
    Ok((front, rest))
}

impl Reading {
    /// Makes a `Reading` that read nothing. Takes no memory.
    pub(crate) fn new(alloc: Global) -> Reading
        ensures stage { result.stage ≡ Stage.AtFront }
        ensures lists { (result.entries.items ≡ []) × (result.made.items ≡ []) × (result.links.items ≡ []) }
        ensures parents { KnowsParents result }
    {
        Reading {
            alloc,
            stage: Stage::AtFront,
            entries: Vec::new(alloc),
            parents: Vec::new(alloc),
            made: Vec::new(alloc),
            links: Vec::new(alloc),
        }
    }

    /// Reads what stands before the first entry, unless that was read before or is cut off. Returns the rest.
    fn take_front<'a>(&mut self, bytes: &'a [u8]) -> Result<&'a [u8], ImageFault>
        ensures reads { Reads (λ rest. rest.now) self.old bytes.now self.new result }
        ensures cut { IfOk result (λ rest. IsCutTo 0 self.new rest.now) }
        ensures adds { OnlyAdds self.old self.new }
        ensures parents { KnowsParents self.old → OnOk result (KnowsParents self.new) }
    {
        let Stage::AtFront = self.stage else {
            return Ok(bytes);
        };
        match front_at(bytes) {
            Ok((front, rest)) => {
                self.stage = Stage::AtEntries {
                    form: front.form,
                    header: front.header,
                    left: front.count,
                };
                Ok(rest)
            }
            Err(fault) => match fault {
                ImageFault::Short => Ok(bytes),
                _ => Err(fault),
            },
        }
    }

    /// Reads entries, and the count of made files after the last, as far as they are whole. Returns the rest.
    fn take_entries<'a>(&mut self, bytes: &'a [u8]) -> Result<&'a [u8], ImageFault>
        requires { IsCutTo 0 self.old bytes.now }
        ensures reads { Reads (λ rest. rest.now) self.old bytes.now self.new result }
        ensures cut { IfOk result (λ rest. IsCutTo 1 self.new rest.now) }
        ensures adds { OnlyAdds self.old self.new }
        ensures parents { KnowsParents self.old → OnOk result (KnowsParents self.new) }
    {
        let Stage::AtEntries { form, header, left } = self.stage else {
            return Ok(bytes);
        };
        let (left, rest) = more_entries(
            self.alloc,
            form,
            left,
            &mut self.entries,
            &mut self.parents,
            bytes,
        )?;
        self.stage = Stage::AtEntries { form, header, left };
        if left > 0 {
            return Ok(rest);
        }
        match u32_at(rest, ImageFault::Short) {
            Ok((count, after)) => {
                self.stage = Stage::AtMade {
                    header,
                    left: count,
                };
                Ok(after)
            }
            Err(_short) => Ok(rest),
        }
    }

    /// Reads made files, and the count of changed names after the last, as far as they are whole. Returns the rest.
    fn take_made<'a>(&mut self, bytes: &'a [u8]) -> Result<&'a [u8], ImageFault>
        requires { IsCutTo 1 self.old bytes.now }
        ensures reads { Reads (λ rest. rest.now) self.old bytes.now self.new result }
        ensures cut { IfOk result (λ rest. IsCutTo 2 self.new rest.now) }
        ensures adds { OnlyAdds self.old self.new }
        ensures parents { KnowsParents self.old → OnOk result (KnowsParents self.new) }
    {
        let Stage::AtMade { header, left } = self.stage else {
            return Ok(bytes);
        };
        let (left, rest) = more_made(left, &mut self.made, bytes)?;
        self.stage = Stage::AtMade { header, left };
        if left > 0 {
            return Ok(rest);
        }
        match u32_at(rest, ImageFault::Short) {
            Ok((count, after)) => {
                self.stage = Stage::AtLinks {
                    header,
                    left: count,
                };
                Ok(after)
            }
            Err(_short) => Ok(rest),
        }
    }

    /// Reads changed names, as far as they are whole. Returns the rest; bytes after the last changed name are a fault.
    fn take_links<'a>(&mut self, bytes: &'a [u8]) -> Result<&'a [u8], ImageFault>
        requires { IsCutTo 2 self.old bytes.now }
        ensures reads { Reads (λ rest. rest.now) self.old bytes.now self.new result }
        ensures cut { IfOk result (λ rest. IsCut self.new rest.now) }
        ensures adds { OnlyAdds self.old self.new }
        ensures parents { KnowsParents self.old → OnOk result (KnowsParents self.new) }
    {
        let Stage::AtLinks { header, left } = self.stage else {
            return Ok(bytes);
        };
        let (left, rest) = more_links(self.alloc, left, &mut self.links, bytes)?;
        self.stage = Stage::AtLinks { header, left };
        if left > 0 {
            return Ok(rest);
        }
        if !rest.is_empty() {
            return Err(ImageFault::Rest);
        }
        Ok(rest)
    }

    /// Reads what is whole of the bytes that come next, and returns the rest.
    pub(crate) fn take<'a>(&mut self, bytes: &'a [u8]) -> Result<&'a [u8], ImageFault>
        ensures reads { Reads (λ rest. rest.now) self.old bytes.now self.new result }
        ensures cut { IfOk result (λ rest. IsCut self.new rest.now) }
        ensures adds { OnlyAdds self.old self.new }
        ensures parents { KnowsParents self.old → OnOk result (KnowsParents self.new) }
    {
        let rest = self.take_front(bytes)?;
        let rest = self.take_entries(rest)?;
        let rest = self.take_made(rest)?;
        self.take_links(rest)
    }

    /// Returns how far reading has come.
    pub(crate) fn mark(&self) -> Mark
        ensures { IsMark self.now result }
    {
        Mark {
            stage: self.stage,
            entries: self.entries.len(),
            parents: self.parents.len(),
            made: self.made.len(),
            links: self.links.len(),
        }
    }

    /// Drops what was read since `mark` was made.
    pub(crate) fn back_to(&mut self, mark: Mark)
        ensures { (start : Reading) → IsMark start mark → OnlyAdds start self.old → IsSame start self.new }
    {
        self.stage = mark.stage;
        self.entries.truncate(mark.entries);
        self.parents.truncate(mark.parents);
        self.made.truncate(mark.made);
        self.links.truncate(mark.links);
    }

    /// Drops what was read but for the last member of each list.
    pub(crate) fn keep_last(&mut self)
        ensures { KeepsLast self.old self.new }
    {
        keep_last(&mut self.entries);
        self.parents.clear();
        keep_last(&mut self.made);
        keep_last(&mut self.links);
    }

    /// Returns the image that was read, if no byte follows, or its fault. Takes no memory.
    pub(crate) fn finish(self) -> Result<Image, ImageFault>
        requires cut { IsCut self [] }
        requires parents { KnowsParents self }
        ensures { Tells (λ image. image) result (resumed self []) }
    {
        let Stage::AtLinks { header, left: 0 } = self.stage else {
            return Err(ImageFault::Short);
        };
        let Reading {
            entries,
            parents,
            made,
            links,
            ..
        } = self;
        let parents = sorted(parents);
        if !all_of_use(entries.as_slice(), parents.as_slice()) {
            return Err(ImageFault::ZeroUse);
        }
        let name = header.name;
        Ok(Image {
            name,
            generation: header.generation,
            next_number: header.next_number,
            entries: Entries::of(entries),
            changes: Changes {
                made: MadeList::of(made),
                links: LinkList::of(links),
                next_file: FileId(header.next_file),
            },
        })
    }
}
