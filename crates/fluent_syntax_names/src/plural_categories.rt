//! Which plural categories languages have: those of cardinal numbers in `common/supplemental/plurals.xml` of version 41
//! of the Unicode Common Locale Data Repository, © 1991-2022 Unicode, Inc.
ghost use Rattle.std.specs.Prelude.{◌≡◌, option_map};
ghost use Rattle.fluent_syntax_names.specs.PluralCategories.{categories_in, ends_code, has_code, has_language};
ghost use Rattle.fluent_syntax_names.specs.PluralCategories.{is_among};

/// Languages, by their codes, that have the same plural categories.
pub struct LanguageGroup {
    pub categories: &'static [&'static str],
    pub languages: &'static [&'static str],
}

/// The plural categories of the first group that has the language of the name: those among which it chooses for a
/// number, such as `one`, `few`, `many` and `other` for `pl`. The name is the code of the language, alone or before its
/// script or its region, as `pt` of `pt-BR` and `pt_BR`. `None` where no group has it.
pub fn plural_categories_of(groups: &[LanguageGroup], name: &str) -> Option<&'static [&'static str]>
    ensures { option_map (λ categories. categories.now) result ≡ categories_in groups.now name.now }
{
    let group = groups
        .iter()
        .find(|group| has_language(group, name.as_bytes()))?;
    Some(group.categories)
}

/// Whether the language of the name is in the group.
fn has_language(group: &LanguageGroup, name: &[u8]) -> bool
    ensures { result ≡ has_language name.now group.now }
{
    group.languages.iter().any(|code| has_code(name, *code))
}

/// Whether the name is that of the language with the code.
fn has_code(name: &[u8], code: &str) -> bool
    ensures { result ≡ has_code name.now code.now }
{
    let code = code.as_bytes();
    name.starts_with(code) && ends_code(name.get(code.len()))
}

/// Whether a code ends before the byte.
fn ends_code(next: Option<&u8>) -> bool
    ensures { result ≡ ends_code (option_map (λ byte. byte.now) next.entry) }
{
    match next {
        Some(byte) => *byte == b'-' || *byte == b'_',
        None => true,
    }
}

/// Whether the name is one of the words.
pub(crate) fn is_among(words: &[&str], name: &[u8]) -> bool
    ensures { result ≡ is_among words.now name.now }
{
    words.iter().any(|word| word.as_bytes() == name)
}

/// The languages whose plural categories are known.
pub static LANGUAGE_GROUPS: [LanguageGroup; 11] = [
    LanguageGroup {
        categories: &["one", "few", "many", "other"],
        languages: &["be", "cs", "lt", "mt", "pl", "ru", "sk", "uk"],
    },
    LanguageGroup {
        categories: &["one", "few", "other"],
        languages: &["bs", "hr", "mo", "ro", "sh", "shi", "sr"],
    },
    LanguageGroup {
        categories: &["one", "many", "other"],
        languages: &["es", "fr", "it", "pt"],
    },
    LanguageGroup {
        categories: &["one", "other"],
        languages: &[
            "af", "ak", "am", "an", "as", "asa", "ast", "az", "bal", "bem", "bez", "bg", "bho",
            "bn", "brx", "ca", "ce", "ceb", "cgg", "chr", "ckb", "da", "de", "doi", "dv", "ee",
            "el", "en", "eo", "et", "eu", "fa", "ff", "fi", "fil", "fo", "fur", "fy", "gl", "gsw",
            "gu", "guw", "ha", "haw", "hi", "hu", "hy", "ia", "io", "is", "jgo", "ji", "jmc", "ka",
            "kab", "kaj", "kcg", "kk", "kkj", "kl", "kn", "ks", "ksb", "ku", "ky", "lb", "lg",
            "lij", "ln", "mas", "mg", "mgo", "mk", "ml", "mn", "mr", "nah", "nb", "nd", "ne", "nl",
            "nn", "nnh", "no", "nr", "nso", "ny", "nyn", "om", "or", "os", "pa", "pap", "pcm",
            "ps", "rm", "rof", "rwk", "saq", "sc", "scn", "sd", "sdh", "seh", "si", "sn", "so",
            "sq", "ss", "ssy", "st", "sv", "sw", "syr", "ta", "te", "teo", "ti", "tig", "tk", "tl",
            "tn", "tr", "ts", "tzm", "ug", "ur", "uz", "ve", "vo", "vun", "wa", "wae", "xh", "xog",
            "yi", "zu",
        ],
    },
    LanguageGroup {
        categories: &["one", "two", "few", "many", "other"],
        languages: &["br", "ga", "gv"],
    },
    LanguageGroup {
        categories: &["one", "two", "few", "other"],
        languages: &["dsb", "gd", "hsb", "sl"],
    },
    LanguageGroup {
        categories: &["one", "two", "many", "other"],
        languages: &["he", "iw"],
    },
    LanguageGroup {
        categories: &["one", "two", "other"],
        languages: &["iu", "naq", "sat", "se", "sma", "smi", "smj", "smn", "sms"],
    },
    LanguageGroup {
        categories: &["other"],
        languages: &[
            "bm", "bo", "dz", "hnj", "id", "ig", "ii", "in", "ja", "jbo", "jv", "jw", "kde", "kea",
            "km", "ko", "lkt", "lo", "ms", "my", "nqo", "osa", "sah", "ses", "sg", "su", "th",
            "to", "tpi", "vi", "wo", "yo", "yue", "zh",
        ],
    },
    LanguageGroup {
        categories: &["zero", "one", "other"],
        languages: &["ksh", "lag", "lv", "prg"],
    },
    LanguageGroup {
        categories: &["zero", "one", "two", "few", "many", "other"],
        languages: &["ar", "ars", "cy", "kw"],
    },
];
