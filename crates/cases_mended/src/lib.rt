// Theory alone: worked cases of mended sub-words and pages, computed. They stand in specs/, apart from the theorems.
