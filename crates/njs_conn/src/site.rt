// Sites: a configuration and the trees of its scripts.
ghost use Rattle.std.specs.Prelude.{◌≡◌, IfOk};
ghost use Rattle.conf_read.specs.Limits.{IsWithinLimits};

use conf_read::Conf;
use njs_text::{List, NoMemory};
use njs_tree::Checked;
use std::marker::Model;

/// A configuration and its scripts, which were read. It is seen as the configuration and the list of the scripts' trees, in the
/// order of the imports.
#[derive(Drop)]
pub struct Site {
    conf: Conf,
    trees: List<Checked>,
}

impl Model for Site {
    ghost use Rattle.njs_conn.specs.Site.{Site as SiteOf};
    ghost use Rattle.conf_read.specs.Limits.{IsWithinLimits};
    ghost use Rattle.njs_conn.specs.SiteCode.{site_code};

    ghost Value = { SiteOf };

    ghost coded = { site_code };

    ghost view = { λ s. record { conf = s.conf; trees = s.trees } };

    ghost invariant = { λ s. IsWithinLimits s.conf };
}

impl Site {
    pub(crate) fn new(conf: Conf, trees: List<Checked>) -> Site
        requires { IsWithinLimits conf }
        ensures conf { result.conf ≡ conf }
        ensures trees { result.trees ≡ trees }
    {
        Site { conf, trees }
    }

    pub fn conf(&self) -> &Conf
        ensures same { result.now ≡ self.now.conf }
        ensures limits { IsWithinLimits self.now.conf }
    {
        &self.conf
    }

    pub(crate) fn trees(&self) -> &[Checked]
        ensures { result.now ≡ self.now.trees }
    {
        self.trees.as_slice()
    }
}

/// A site that is ready to serve. It is seen as its site.
#[derive(Drop)]
pub struct Loaded {
    site: Site,
}

impl Model for Loaded {
    ghost use Rattle.njs_conn.specs.Site.{Site as SiteOf};
    ghost use Rattle.njs_conn.specs.SiteCode.{site_code};

    ghost Value = { SiteOf };

    ghost coded = { site_code };

    ghost view = { λ l. l.site };
}

impl Loaded {
    pub(crate) fn site(&self) -> &Site
        ensures { result.now ≡ self.now }
    {
        &self.site
    }
}

/// Makes a site ready to serve.
pub fn load(site: Site) -> Result<Loaded, NoMemory>
    ensures { IfOk result (λ loaded. loaded ≡ site) }
{
    Ok(Loaded { site })
}
