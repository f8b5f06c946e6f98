//! Names of entries.

ghost use Rattle.std.specs.Prelude.{◌≡◌, ◌≢◌, ◌≤◌, ◌<◌, IsTrue, MatchOption, IfOk, OnOk, OnErr, false, true, length};
ghost use Rattle.std.specs.List.{list_all};
ghost use Rattle.std.specs.Ordering.{is_lt};
ghost use Rattle.std.specs.Arc.{arc_value};
ghost use Rattle.fs_names.specs.Names.{IsName, can_name, can_name_in_place, may_stand, is_dots, is_long, name_cmp, same_name, shared_bytes};
ghost use Rattle.fs_names.specs.Heads.{IsHead};
ghost use Rattle.fs_names.specs.code.HeldNames.{held_bytes, held_len, IsPlaced};

use crate::order::word;
use fs_memory::Memory;
use std::alloc::{AllocError, Global};
use std::marker::Model;
use std::sync::Arc;

/// How many bytes a name has room for: the most that any set of limits allows.
const NAME_ROOM: usize = 255;

/// How many of them are in the name itself. The bytes of a longer name are shared by its copies.
const IN_PLACE: usize = 64;

/// Where the bytes of a name are, with how many there are: in place, with zeros after them, or in memory that copies
/// share.
#[derive(Drop)]
enum Held {
    InPlace(u8, [u8; IN_PLACE]),
    Shared(u8, Arc<Vec<u8>>),
}

/// The name of an entry: 1 to 255 bytes, neither a slash nor zero among them, and not `.` or `..`
/// (POSIX.1-2017, XBD 3, Filename, with this project's limit). One of more than 64 bytes shares them with its copies.
#[derive(Drop)]
pub struct Name {
    held: Held,
}

impl Model for Name {
    ghost use Rattle.std.specs.Prelude.{ℕ, List};
    ghost use Rattle.fs_names.specs.code.HeldNames.{held_bytes, IsHeldName};

    ghost Value = { List ℕ };

    ghost view = { λ n. held_bytes n.held };

    ghost invariant = { λ n. IsHeldName n.held };
}

/// One more owner of the bytes of a long name, taken before the name is copied, so that nothing can refuse the copy. A name
/// that shares no bytes has none.
#[derive(Drop)]
pub struct NameOwner {
    shared: Option<Arc<Vec<u8>>>,
}

impl Model for NameOwner {
    ghost use Rattle.std.specs.Prelude.{ℕ, List, Option, option_map};
    ghost use Rattle.std.specs.Arc.{arc_value};
    ghost use Rattle.fs_names.specs.code.HeldNames.{owned_bytes};

    ghost Value = { Option (List ℕ) };

    ghost view = { λ o. owned_bytes (option_map arc_value o.shared) };
}

/// Whether no byte is zero or a slash.
fn all_may_stand(bytes: &[u8]) -> bool
    ensures { result ≡ list_all may_stand bytes.now }
{
    bytes.iter().all(|b| *b != 0 && *b != b'/')
}

/// Whether the bytes are one dot or two.
#[inline]
pub(crate) fn only_dots(bytes: &[u8]) -> bool
    ensures { result ≡ is_dots bytes.now }
{
    match bytes {
        [a] => *a == b'.',
        [a, b] => *a == b'.' && *b == b'.',
        _ => false,
    }
}

/// Whether the bytes are a name.
fn are_name(bytes: &[u8]) -> bool
    ensures { result ≡ can_name bytes.now }
{
    !bytes.is_empty() && bytes.len() <= NAME_ROOM && all_may_stand(bytes) && !only_dots(bytes)
}

/// What may be a name is one, since it is of bytes.
#[inline(always)]
fn known(bytes: &[u8])
    requires { IsTrue (can_name bytes.now) }
    ensures { IsName bytes.now }
{}

/// The bytes, in place.
#[inline]
fn in_place(bytes: &[u8]) -> Held
    requires { length bytes.now ≤ IN_PLACE }
    ensures bytes { held_bytes result ≡ bytes.now }
    ensures len { held_len result ≡ length bytes.now }
    ensures placed { IsPlaced result }
{
    let mut room = [0; IN_PLACE];
    room[..bytes.len()].copy_from_slice(bytes);
    Held::InPlace(bytes.len() as u8, room)
}

impl Name {
    /// The bytes as a name that is kept in place, if they are one, and else `None`. More than 64 bytes are `None` too.
    pub fn read(bytes: &[u8]) -> Option<Name>
        ensures { MatchOption result (can_name_in_place bytes.now ≡ false) (λ n. IsTrue (can_name_in_place bytes.now) × (n ≡ bytes.now)) }
    {
        if bytes.len() <= IN_PLACE && are_name(bytes) {
            return Some(Name {
                held: in_place(bytes),
            });
        }
        None
    }

    /// The bytes as a name of any length, where they are one, and else `None`. It allocates for one of more than 64 bytes.
    pub fn read_long(alloc: Global, bytes: &[u8]) -> Result<Option<Name>, AllocError>
        ensures read { IfOk result (λ name. MatchOption name (can_name bytes.now ≡ false) (λ n. IsTrue (can_name bytes.now) × (n ≡ bytes.now))) }
        ensures memory { OnErr result (IsTrue (is_long bytes.now)) }
    {
        if are_name(bytes) {
            return Ok(Some(Name::of(alloc, bytes)?));
        }
        Ok(None)
    }

    /// The name of bytes that are one.
    #[inline]
    pub(crate) fn of(alloc: Global, bytes: &[u8]) -> Result<Name, AllocError>
        requires { IsTrue (can_name bytes.now) }
        ensures name { IfOk result (λ name. name ≡ bytes.now) }
        ensures memory { OnErr result (IsTrue (is_long bytes.now)) }
    {
        if bytes.len() <= IN_PLACE {
            return Ok(Name {
                held: in_place(bytes),
            });
        }
        let shared = Arc::new(alloc, Vec::from_slice(alloc, bytes)?).map_err(|_| AllocError)?;
        Ok(Name {
            held: Held::Shared(bytes.len() as u8, shared),
        })
    }

    /// The bytes of the name, 1 to 255 of them.
    #[inline]
    pub fn bytes(&self) -> &[u8]
        ensures bytes { result.now ≡ self.now }
        ensures named { IsTrue (can_name self.now) }
        ensures is_name { IsName self.now }
    {
        let bytes = match &self.held {
            Held::InPlace(len, room) => &room[..*len as usize],
            Held::Shared(_, bytes) => bytes.as_slice(),
        };
        let _ = known(bytes);
        bytes
    }

    /// How many bytes it has.
    #[inline(always)]
    pub fn len(&self) -> usize
        ensures len { result ≡ length self.now }
        ensures named { IsTrue (can_name self.now) }
    {
        match &self.held {
            Held::InPlace(len, _) | Held::Shared(len, _) => *len as usize,
        }
    }

    /// Its first eight bytes as one number, the first one above all others, with zeros after the last one.
    #[inline(always)]
    pub fn head(&self) -> u64
        ensures head { IsHead result self.now }
        ensures named { IsTrue (can_name self.now) }
    {
        match &self.held {
            Held::InPlace(_, room) => word(room),
            Held::Shared(_, bytes) => word(bytes.as_slice()),
        }
    }

    /// The same name again. It takes no memory: an `Err` says that the bytes of a long name are shared so often that their
    /// owners are no longer counted.
    pub fn copy(&self) -> Result<Name, AllocError>
        ensures ok { IfOk result (λ name. name ≡ self.now) }
        ensures memory { OnErr result (IsTrue (is_long self.now)) }
    {
        self.copy_counted(&mut Memory::new())
    }

    /// The same, and a refusal is counted.
    pub fn copy_counted(&self, memory: &mut Memory) -> Result<Name, AllocError>
        ensures ok { IfOk result (λ name. name ≡ self.now) }
        ensures memory { OnErr result (IsTrue (is_long self.now)) }
        ensures granted { OnOk result (memory.new ≡ memory.old) }
        ensures refused { OnErr result (memory.new ≢ memory.old) }
    {
        let owner = self.owner(memory)?;
        Ok(self.copy_with(owner))
    }

    /// What a copy of the name needs. An `Err` is as for `copy`, and is counted.
    pub fn owner(&self, memory: &mut Memory) -> Result<NameOwner, AllocError>
        ensures ok { IfOk result (λ owner. owner ≡ shared_bytes self.now) }
        ensures memory { OnErr result (IsTrue (is_long self.now)) }
        ensures granted { OnOk result (memory.new ≡ memory.old) }
        ensures refused { OnErr result (memory.new ≢ memory.old) }
    {
        match &self.held {
            Held::InPlace(_, _) => Ok(NameOwner { shared: None }),
            Held::Shared(_, bytes) => {
                let bytes = memory.share(bytes)?;
                Ok(NameOwner {
                    shared: Some(bytes),
                })
            }
        }
    }

    /// The same name again, by what was taken for its copy.
    #[inline]
    pub fn copy_with(&self, owner: NameOwner) -> Name
        requires { owner ≡ shared_bytes self.now }
        ensures { result ≡ self.now }
    {
        let NameOwner { shared } = owner;
        match (&self.held, shared) {
            (Held::InPlace(len, room), _) => Name {
                held: Held::InPlace(*len, *room),
            },
            (Held::Shared(len, _), Some(bytes)) => Name {
                held: Held::Shared(*len, bytes),
            },
            (Held::Shared(_, _), None) => unreachable!(),
        }
    }

    /// Whether it is above these bytes in byte order, as each name is above no bytes.
    pub fn is_above(&self, bytes: &[u8]) -> bool
        ensures { result ≡ is_lt (name_cmp bytes.now self.now) }
    {
        bytes < self.bytes()
    }

    /// Whether the two names are equal, byte for byte. It answers what `==` does of their bytes, in the words of their order,
    /// by which `cmp` compares them.
    pub fn same(&self, other: &Name) -> bool
        ensures { result ≡ same_name self.now other.now }
    {
        self.bytes() == other.bytes()
    }
}

/// The name `-`, with which the unused places of a short list of names are filled.
impl Default for Name {
    fn default() -> Self {
        Name {
            held: in_place(b"-"),
        }
    }
}
