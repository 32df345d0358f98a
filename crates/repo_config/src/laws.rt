//! Laws of configurations, each as a function whose contract is the law.
ghost use Rattle.repo_config.specs.Config.{IsConfig, config_text};

/// What is written where there is no configuration is one.
pub fn new_config()
    ensures { IsConfig config_text }
{}
