ghost use Rattle.std.specs.Prelude.{◌≤◌, ℕ};
ghost use Rattle.crn_vec.specs.Network.{Net};
ghost use Rattle.crn_text.specs.Spells.{Spells};
ghost use Rattle.crn_sample.specs.Sample.{sample_text};
ghost use Rattle.crn_sample.specs.declared.limits.TheConstants.{MAX_SAMPLE};

/// The text of each sample spells a network, so that reading it meets no fault.
pub fn sample_texts_spell_networks()
    ensures { (number : ℕ) → 1 ≤ number → number ≤ MAX_SAMPLE →
        (net : Net) × Spells (sample_text number) net }
{}
