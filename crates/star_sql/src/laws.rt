// Laws on statements and their spellings.
ghost use Rattle.star_sql.specs.ParseResult.{SpelledOnce, DepthByPrefixes};

/// Two well formed statements with one spelling are equal.
pub fn one_spelling()
    ensures { SpelledOnce }
{}

/// Too many parentheses are open at once exactly where in some prefix `(` stands more than 32 times oftener than `)`.
pub fn depth_by_prefixes()
    ensures { DepthByPrefixes }
{}
