//! Words of a line, and what they stand for.
use hir_base::ast_id::{BlockId, SyntaxId};
use hir_base::edition::Edition;
use hir_base::ids::{Crate, MapId, ModuleId};
use hir_base::mod_path::{ModPath, ParseError};
use hir_base::name::{Name, NameError};
use hir_def_map::{BuiltinShadowMode, MacroSubNs, ResolveMode};
use hir_item_tree::raw_visibility::{RawVisibility, VisibilityExplicitness};
use hir_item_tree::shape::FieldsShape;
use hir_scope::visibility::Visibility;
use std::alloc::{AllocError, Global};

/// Why a line isn't answered.
#[derive(Clone, Copy)]
pub enum Fault {
    /// It has no meaning.
    Bad,
    Memory,
}

impl From<AllocError> for Fault {
    fn from(_: AllocError) -> Self {
        Fault::Memory
    }
}

/// What stands beside a word in a table.
pub fn find<T: Copy>(table: &[(&str, T)], word: &str) -> Result<T, Fault> {
    for (key, value) in table {
        if *key == word {
            return Ok(*value);
        }
    }
    Err(Fault::Bad)
}

pub fn number_of(word: &str) -> Result<u32, Fault> {
    match word.parse::<u32>() {
        Ok(number) => Ok(number),
        Err(_) => Err(Fault::Bad),
    }
}

pub fn node_of(word: &str) -> Result<SyntaxId, Fault> {
    match word.parse::<u16>() {
        Ok(hash) => Ok(SyntaxId { hash, index: 0 }),
        Err(_) => Err(Fault::Bad),
    }
}

/// `1` is the map of a crate, `1.7` that of a block.
pub fn map_id(word: &str) -> Result<MapId, Fault> {
    let Some((krate, block)) = word.split_once('.') else {
        return Ok(MapId::of_crate(Crate(number_of(word)?)));
    };
    Ok(MapId {
        krate: Crate(number_of(krate)?),
        block: Some(BlockId(number_of(block)?)),
    })
}

/// `1:2` is the module 2 of the map 1.
pub fn module_id(word: &str) -> Result<ModuleId, Fault> {
    let Some((map, index)) = word.split_once(':') else {
        return Err(Fault::Bad);
    };
    Ok(ModuleId {
        map: map_id(map)?,
        index: number_of(index)?,
    })
}

pub fn name_of(alloc: Global, word: &str) -> Result<Name, Fault> {
    match Name::new(alloc, word) {
        Ok(name) => Ok(name),
        Err(NameError::Memory) => Err(Fault::Memory),
        Err(_) => Err(Fault::Bad),
    }
}

const EDITIONS: [(&str, Edition); 4] = [
    ("2015", Edition::Edition2015),
    ("2018", Edition::Edition2018),
    ("2021", Edition::Edition2021),
    ("2024", Edition::Edition2024),
];

pub fn edition_of(word: &str) -> Result<Edition, Fault> {
    find(&EDITIONS, word)
}

const SHAPES: [(&str, FieldsShape); 3] = [
    ("record", FieldsShape::Record),
    ("tuple", FieldsShape::Tuple),
    ("unit", FieldsShape::Unit),
];

pub fn shape_of(word: &str) -> Result<FieldsShape, Fault> {
    find(&SHAPES, word)
}

/// `pub`, or one of a crate or of a module.
pub fn visibility_of(word: &str) -> Result<Visibility, Fault> {
    let Some((key, of)) = word.split_once('=') else {
        return if word == "pub" {
            Ok(Visibility::Public)
        } else {
            Err(Fault::Bad)
        };
    };
    match key {
        "crate" => Ok(Visibility::PubCrate(Crate(number_of(of)?))),
        "in" => within(of, VisibilityExplicitness::Implicit),
        "pub-in" => within(of, VisibilityExplicitness::Explicit),
        _ => Err(Fault::Bad),
    }
}

fn within(of: &str, explicitness: VisibilityExplicitness) -> Result<Visibility, Fault> {
    Ok(Visibility::Module(module_id(of)?, explicitness))
}

/// A visibility as it is written.
pub fn written_visibility(word: &str) -> Result<RawVisibility, Fault> {
    match word {
        "pub" => Ok(RawVisibility::Public),
        "pub(crate)" => Ok(RawVisibility::PubCrate),
        "pub(self)" => Ok(RawVisibility::PubSelf(VisibilityExplicitness::Explicit)),
        _ => Err(Fault::Bad),
    }
}

/// Writes a segment of a path; `d*3` stands for three of them.
fn push_segment(text: &mut String, segment: &str) -> Result<(), Fault> {
    let Some((segment, times)) = segment.split_once('*') else {
        text.push_str(segment)?;
        return Ok(());
    };
    text.push_str(segment)?;
    for _ in 1..number_of(times)? {
        text.push_str("::")?;
        text.push_str(segment)?;
    }
    Ok(())
}

fn push_segments(text: &mut String, word: &str) -> Result<(), Fault> {
    let mut rest = word;
    for _ in 0..word.len() {
        let Some((segment, more)) = rest.split_once("::") else {
            break;
        };
        push_segment(text, segment)?;
        text.push_str("::")?;
        rest = more;
    }
    push_segment(text, rest)
}

/// The path of a word, in which segments may be counted; `""` is the empty one.
pub fn path_of(alloc: Global, word: &str) -> Result<ModPath, Fault> {
    let mut text = String::new(alloc);
    if word != "\"\"" {
        push_segments(&mut text, word)?;
    }
    match ModPath::parse(alloc, text.as_str()) {
        Ok(path) => Ok(path),
        Err(ParseError::Memory) => Err(Fault::Memory),
        Err(_) => Err(Fault::Bad),
    }
}

/// How a path is asked for.
#[derive(Clone, Copy)]
pub struct Setting {
    pub mode: ResolveMode,
    pub shadow: BuiltinShadowMode,
    pub style: Option<MacroSubNs>,
}

fn with_word(setting: Setting, word: &str) -> Result<Setting, Fault> {
    let Setting {
        mode,
        shadow,
        style,
    } = setting;
    match word {
        "import" => Ok(Setting {
            mode: ResolveMode::Import,
            shadow,
            style,
        }),
        "module" => Ok(Setting {
            mode,
            shadow: BuiltinShadowMode::Module,
            style,
        }),
        "other" => Ok(Setting {
            mode,
            shadow: BuiltinShadowMode::Other,
            style,
        }),
        "bang" => Ok(Setting {
            mode,
            shadow,
            style: Some(MacroSubNs::Bang),
        }),
        "attr" => Ok(Setting {
            mode,
            shadow,
            style: Some(MacroSubNs::Attr),
        }),
        _ => Err(Fault::Bad),
    }
}

/// The setting of the words behind a path.
pub fn setting_of(words: &[&str]) -> Result<Setting, Fault> {
    let mut setting = Setting {
        mode: ResolveMode::Other,
        shadow: BuiltinShadowMode::Other,
        style: None,
    };
    for word in words {
        setting = with_word(setting, word)?;
    }
    Ok(setting)
}
