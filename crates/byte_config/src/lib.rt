// A configuration from its 24 bytes.
#![tactic(auto)]

ghost use Rattle.std.specs.Prelude.{◌≡◌};
ghost use Rattle.wire.specs.Words.{word_at};
ghost use Rattle.byte_config.specs.ByteConfig.{extension_of, config_of};

use account::{IdentifyConfig, IdentifyExtension};

// The extension of a configuration: a flag at byte 12 that is not 0, then its amplitude and its duration.
#[tactic(auto, unfolding(crate::specs::ByteConfig::extension_of))]
fn extension_of(config: &[u8]) -> Option<IdentifyExtension>
    ensures { result ≡ extension_of (word_at config.now 12) config.now }
{
    (wire::read_word(config, 12) != 0).then_some(IdentifyExtension {
        amplitude: wire::read_float(config, 16),
        duration_s: wire::read_float(config, 20),
    })
}

// The configuration of 24 bytes; one past the end reads as 0.
#[tactic(auto, unfolding(crate::specs::ByteConfig::config_of))]
pub fn config_of(config: &[u8]) -> IdentifyConfig
    ensures { result ≡ config_of config.now }
{
    IdentifyConfig {
        amplitude: wire::read_float(config, 0),
        duration_s: wire::read_float(config, 4),
        washout_tc_s: wire::read_float(config, 8),
        noisy: extension_of(config),
    }
}
