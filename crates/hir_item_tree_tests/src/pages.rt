use crate::units::{is_text, tree_of};
use hir_base::edition::Edition::Edition2021;
use std::alloc::Global;
use std::process::Abort;
use std::test::Fail;

/// Some kinds, and a name that edition 2021 reserves.
const OTHERS: &str = r#"{"nodes":[
    {"kind":"ExternCrate","id":[1,0],"name":"self","as":"me"},
    {"kind":"Const","id":[2,0],"body":"1"},
    {"kind":"Static","id":[3,2047],"vis":"pub","name":"async","body":"1"},
    {"kind":"Union","id":[4,0],"name":"U","fields":[]},
    {"kind":"Trait","id":[5,0],"name":"T","items":[]},
    {"kind":"TypeAlias","id":[6,0],"name":"A"},
    {"kind":"Enum","id":[7,0],"name":"E","variants":[]}
]}"#;

/// Units, and their pages.
const ROWS: &[(&str, &str, &str)] = &[
    ("no items", r#"{"nodes":[]}"#, "\n"),
    ("broken", r#""broken""#, "\n"),
    (
        "inline_and_outline_modules",
        r#"{"nodes":[
            {"kind":"Module","id":[942,0],"name":"inline","nodes":[
                {"kind":"Use","id":[0,0],"tree":{"glob":"super"}},
                {"kind":"Fn","id":[10872,0],"name":"fn_in_module","body":"{}"}
            ]},
            {"kind":"Module","id":[49291,0],"name":"outline"}
        ]}"#,
        "// AstId: Module[03AE, 0]\npub(self) mod inline {\n    // AstId: Use[0000, 0]\n    pub(self) use super::*;\n\n    // AstId: Fn[2A78, 0]\n    pub(self) fn fn_in_module;\n}\n\n// AstId: Module[C08B, 0]\npub(self) mod outline;\n",
    ),
    (
        "struct",
        r#"{"nodes":[{"kind":"Struct","id":[20516,0],"name":"S"}]}"#,
        "// AstId: Struct[5024, 0]\npub(self) struct S { ... }\n",
    ),
    (
        "use trees",
        r#"{"nodes":[
            {"kind":"Use","id":[0,0],"vis":{"in":"crate::m"},
             "tree":{"list":[{"single":"b","as":"_"},{"glob":null}],"path":"a"}},
            {"kind":"Use","id":[0,1],"vis":"crate","tree":{"list":[]}}
        ]}"#,
        "// AstId: Use[0000, 0]\npub(in crate::m) use a::{b as _, *};\n\n// AstId: Use[0000, 1]\npub(crate) use {};\n",
    ),
    // kinds without visibility, and an extern block with an item that it doesn't keep
    (
        "macros and blocks",
        r#"{"nodes":[
            {"kind":"ExternBlock","id":[3,0],"nodes":[
                {"kind":"Fn","id":[1,0],"name":"f","body":""},
                {"kind":"Enum","id":[2,0],"name":"E","variants":[]}
            ]},
            {"kind":"ExternBlock","id":[4,0],"nodes":[]},
            {"kind":"Impl","id":[5,0],"trait":true,"items":[]},
            {"kind":"MacroCall","id":[6,0],"path":"a::b"},
            {"kind":"MacroRules","id":[7,0],"name":"m","text":"() => {}"},
            {"kind":"MacroDef","id":[8,0],"name":"n","text":"() => {}"}
        ]}"#,
        "// AstId: ExternBlock[0003, 0]\nextern {\n    // AstId: Fn[0001, 0]\n    pub(self) fn f;\n}\n\n// AstId: ExternBlock[0004, 0]\nextern {\n}\n\n// AstId: Impl[0005, 0]\nimpl { ... }\n\n// AstId: MacroCall[0006, 0]\na::b!(...);\n\n// AstId: MacroRules[0007, 0]\nmacro_rules! m { ... }\n\n// AstId: MacroDef[0008, 0]\npub(self) macro n { ... }\n",
    ),
    (
        "other kinds",
        OTHERS,
        "// AstId: ExternCrate[0001, 0]\npub(self) extern crate self as me;\n\n// AstId: Const[0002, 0]\npub(self) const _;\n\n// AstId: Static[0003, 2047]\npub static r#async;\n\n// AstId: Union[0004, 0]\npub(self) union U { ... }\n\n// AstId: Trait[0005, 0]\npub(self) trait T { ... }\n\n// AstId: TypeAlias[0006, 0]\npub(self) type A;\n\n// AstId: Enum[0007, 0]\npub(self) enum E { ... }\n",
    ),
    (
        "disabled_item_prints_its_condition",
        r#"{"nodes":[{"kind":"Fn","id":[1,0],"name":"f","body":"","attrs":[
            {"path":"inline"},
            {"path":"path","literal":"a.rs"},
            {"path":"derive","paths":["A","b::C"]},
            {"path":"doc","tokens":"a b"},
            {"path":"proc_macro_derive","derive":"D","helpers":["h","i"]},
            {"path":"cfg","cfg":{"any":["x",{"key":"k","value":"v"}]}},
            {"path":"cold"}
        ]}]}"#,
        "#[inline]\n#[path = \"a.rs\"]\n#[derive(A, b::C)]\n#[doc(a b)]\n#[proc_macro_derive(D, attributes(h, i))]\n#[cfg(any(x, k = \"v\"))]\n// AstId: Fn[0001, 0]\npub(self) fn f;\n",
    ),
];

fn page_of(alloc: Global, unit: &str) -> Result<String, Fail> {
    let tree = tree_of(alloc, unit)?;
    Ok(tree.pretty_print(Edition2021)?)
}

fn have_pages(rt: &impl Abort, alloc: Global, rows: &[(&str, &str, &str)]) -> Result<(), Fail> {
    for &(row, unit, page) in rows {
        let text = page_of(alloc, unit)?;
        is_text(rt, row, text.as_str(), page);
    }
    Ok(())
}

/// The page of each source.
#[test]
fn pretty(rt: HostRuntime) -> Result<(), Fail> {
    have_pages(&rt, rt.alloc(), ROWS)
}
